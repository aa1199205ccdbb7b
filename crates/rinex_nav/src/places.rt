//! The places of each satellite's records.

ghost use Rattle.std.specs.Prelude.{◌≡◌, ◌++◌, [], ◌∷◌, OnOk, IfErr, if◌then◌else◌};
ghost use Rattle.gnss_model.specs.declared.satellites.Sat.{Sat};
ghost use Rattle.rinex_text.specs.declared.fault.ReadError.TheVariants.{NoMemory};
ghost use Rattle.rinex_nav.specs.Index.{listed};
ghost use Rattle.rinex_nav.specs.Places.{is_same};

use gnss_model::Sat;
use indexmap::IndexMap;
use rinex_text::ReadError;
use std::alloc::Global;

/// The places of each satellite's records, in rising order.
pub type Places = IndexMap<Sat, Vec<u32>>;

/// The places of the satellite's records.
pub fn places_of(places: &Places, sat: Sat) -> &[u32]
    ensures { result.now ≡ listed places.now sat }
{
    match places.get(&sat) {
        Some(list) => list.as_slice(),
        None => &[],
    }
}

/// Notes one more place of the satellite.
pub fn add_place(alloc: Global, places: &mut Places, sat: Sat, place: u32) -> Result<(), ReadError>
    ensures listed { OnOk result ((other : Sat) → listed places.new other ≡ listed places.old other
        ++ (if is_same other sat then place ∷ [] else [])) }
    ensures memory { IfErr result (λ e. e ≡ NoMemory) }
{
    if let Some(list) = places.get_mut(&sat) {
        list.push(place)?;
        return Ok(());
    }
    let mut list = Vec::new(alloc);
    list.push(place)?;
    places.insert(sat, list)?;
    Ok(())
}
