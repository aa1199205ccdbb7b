//! Tests alone: eccentric anomalies, clocks, places, turned places and prepared pseudoranges against
//! vectors of other sources, clocks and places of recorded satellites, which satellites are usable,
//! their rows, also beside a station, and the files of a made receiver.
#![tactic(auto)]

#[cfg(test)]
mod anomalies;
#[cfg(test)]
mod anomaly_vectors;
#[cfg(test)]
mod clock_records;
#[cfg(test)]
mod clocks;
#[cfg(test)]
mod galileo_chains;
#[cfg(test)]
mod made_receivers;
#[cfg(test)]
mod orbit_records;
#[cfg(test)]
mod orbit_vectors;
#[cfg(test)]
mod orbits;
#[cfg(test)]
mod ranges;
#[cfg(test)]
mod recorded_ephemerides;
#[cfg(test)]
mod recorded_places;
#[cfg(test)]
mod recorded_vectors;
#[cfg(test)]
mod rows_overhead;
#[cfg(test)]
mod stations;
#[cfg(test)]
mod turn_vectors;
#[cfg(test)]
mod turns;
#[cfg(test)]
mod usable_satellites;
#[cfg(test)]
mod written_texts;
