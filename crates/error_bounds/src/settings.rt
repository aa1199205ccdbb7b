//! The settings of a run.

ghost use Rattle.std.specs.Prelude.{◌≡◌, ◌+◌, ◌≤◌, true};
ghost use Rattle.std.specs.Option.{ForSome};
ghost use Rattle.gnss_model.specs.Delays.{AreDelays};
ghost use Rattle.error_bounds.specs.Sizes.{IsCentre, AreHalfSides, IsSumOfFour, IsDeclared, IsSpeed, IsAscending, are_codes, AreDeclared};

use crate::bounds::sum;
use crate::galileo::Galileo;
use crate::search_box::box_around;
use crate::station::DeclaredStation;
use bound_directions::Directions;
use gnss_model::{Delays, GalileoUse, Sat, Signal};
use grid_model::{Box3, Pos, Span};
use sat_model::Rules;

/// Where the middle of the search box is.
#[derive(Clone, Copy, Debug, PartialEq, Eq)]
pub enum Centre {
    /// At the approximate position in the header of the observation file.
    Header,
    /// At this point.
    At(Pos),
}

/// The settings of a run, with lengths in um.
#[derive(Drop)]
pub struct Settings {
    /// The middle of the search box, within 8,500 km of the origin on each axis.
    pub centre: Centre,
    /// Half of each side of the search box, from 1 mm to 100 km.
    pub half: Pos,
    pub rules: Rules,
    /// How far, in s, the ephemeris time of a record may be from the time of an epoch: 1 to 14,400.
    pub max_age: u32,
    /// Whether rows are renewed for smaller boxes among the steps of an epoch.
    pub renew: bool,
    /// Along which directions a log has certified bounds, where it has them. They ask for pairs of rows.
    pub directions: Option<Directions>,
    pub signal: Signal,
    /// The sum of the four spans declared for every satellite, each within 1 km.
    pub common: Span,
    /// What is declared for one satellite beyond that, within 1 km, in the order of their names.
    pub extra: Vec<(Sat, Span)>,
    /// What is declared of the delays straight up, the troposphere's within 10 m and the
    /// ionosphere's within 100 m: mapped by elevation they are added to the sum.
    pub delays: Delays,
    /// What is declared for Galileo satellites. Where it is none they aren't used.
    pub galileo: Option<Galileo>,
    /// The greatest speed of the receiver, in mm/s and up to 1 km/s, as the key `motion.speed`
    /// declares it.
    pub speed: Option<u32>,
    /// Whether a track begins anew in the search box behind an epoch that kept no box.
    pub restart: bool,
    /// The station whose epochs are taken beside those of the receiver, where one is declared.
    pub station: Option<DeclaredStation>,
    pub ghost centre_within: { IsCentre centre },
    pub ghost half_within: { AreHalfSides half },
    pub ghost some_age: { 1 ≤ max_age },
    pub ghost short_age: { max_age ≤ 14400 },
    pub ghost with_pairs: { ForSome directions (λ given. rules.pairs ≡ true) },
    pub ghost codes: { are_codes signal ≡ true },
    pub ghost common_within: { IsSumOfFour common },
    pub ghost extra_within: { AreDeclared extra.items },
    pub ghost extra_once: { IsAscending extra.items },
    pub ghost delays_within: { AreDelays delays },
    pub ghost speed_within: { IsSpeed speed },
    pub ghost ages: { ForSome station (λ declared. max_age + declared.age ≤ 14400) },
}

impl Settings {
    ghost use Rattle.grid_model.specs.Boxes.{grid_box};
    ghost use Rattle.sat_model.specs.Relaxed.{ends};
    ghost use Rattle.grid_model.specs.SearchBoxes.{IsSearchBox};
    ghost use Rattle.error_bounds.specs.Reading.{value_of_settings, signal_of, galileo_use_of, with_ends, bound_for, extra_for, offset_for, centre_with, IsEnough, IsRoot};

    /// The codes of Galileo satellites, where these are used.
    pub fn galileo_signal(&self) -> Option<Signal>
        ensures { result ≡ signal_of (value_of_settings self.now).galileo }
    {
        match self.galileo {
            Some(galileo) => Some(galileo.signal),
            None => None,
        }
    }

    /// By which message and with which codes Galileo satellites are used, where they are.
    pub fn galileo_use(&self) -> Option<GalileoUse>
        ensures { result ≡ galileo_use_of (value_of_settings self.now).galileo }
    {
        match self.galileo {
            Some(galileo) => Some(GalileoUse {
                message: galileo.message,
                signal: galileo.signal,
            }),
            None => None,
        }
    }

    /// The sum of all spans that are declared for the satellite, in um.
    pub fn bound_of(&self, sat: Sat) -> Span
        ensures { ends result ≡ bound_for sat (value_of_settings self.now) }
    {
        let own = sum(self.common, self.extra_of(sat));
        sum(own, self.offset_of(sat))
    }

    /// The satellite's own span, and that of 0 alone where it has none.
    fn extra_of(&self, sat: Sat) -> Span
        ensures value { ends result ≡ extra_for sat (with_ends self.now.extra.items) }
        ensures within { IsDeclared result }
    {
        'entries: for entry in &self.extra {
            if entry.0 == sat {
                return entry.1;
            }
        }
        Span { lo: 0, hi: 0 }
    }

    /// The offset of the system times for a Galileo satellite, and that of 0 alone for others.
    fn offset_of(&self, sat: Sat) -> Span
        ensures value { ends result ≡ offset_for sat (value_of_settings self.now).galileo }
        ensures within { IsDeclared result }
    {
        let Some(galileo) = self.galileo else {
            return Span { lo: 0, hi: 0 };
        };
        if sat.system == b'E' {
            return galileo.offset;
        }
        Span { lo: 0, hi: 0 }
    }

    /// The search box: the centre plus and minus the half sides. Where the centre is that of the
    /// header, `header` has to be there, within 8,500 km of the origin on each axis.
    pub fn root(&self, header: Option<Pos>) -> Box3
        requires { IsEnough self.now.centre header }
        ensures value { IsRoot (centre_with header self.now.centre) self.now.half
            (grid_box result) }
        // Within 8,600 km of the origin on each axis, and no side is longer than 200 km.
        ensures search_box { IsSearchBox (grid_box result) }
    {
        match self.centre {
            Centre::At(point) => box_around(point, self.half),
            Centre::Header => box_around(header.unwrap(), self.half),
        }
    }
}
