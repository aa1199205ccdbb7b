//! Where the wanted codes stand among the observation types of a system.

ghost use Rattle.std.specs.Prelude.{◌≡◌, ◌≤◌, ◌<◌, ◌+◌, ◌++◌, ◌∷◌, [], List, length, IfSome};
ghost use Rattle.std.specs.Prelude.{IfNone};
ghost use Rattle.std.specs.Option.{ForSome};
ghost use Rattle.rinex_obs.specs.Types.{Code, Types, place_of};
ghost use Rattle.rinex_obs.specs.Header.{CodePlaces, ArePlaces};

use gnss_model::Signal;

/// The places of the wanted codes among the types, from 0.
#[derive(Clone, Copy)]
pub struct Places {
    pub first: u16,
    pub second: Option<u16>,
    pub ghost first_in: { first < 999 },
    pub ghost second_in: { ForSome second (λ place. place < 999) },
}

/// The places of the wanted codes of each system.
#[derive(Clone, Copy)]
pub struct WantedPlaces {
    pub gps: Places,
    pub galileo: Option<Places>,
}

/// So many of the types were seen, and the wanted codes found at these places.
#[derive(Clone, Copy)]
pub struct Found {
    /// How many types there are.
    pub count: u16,
    pub seen: u16,
    pub first: Option<u16>,
    pub second: Option<u16>,
    pub ghost within: { seen ≤ count },
    pub ghost few: { count ≤ 999 },
    pub ghost first_in: { ForSome first (λ place. place < seen) },
    pub ghost second_in: { ForSome second (λ place. place < seen) },
}

/// Where a code is found first, behind so many that were seen.
fn place_with(found: Option<u16>, seen: u16, code: &[u8], wanted: &[u8]) -> Option<u16>
    requires { ForSome found (λ place. place < seen) }
    ensures place { (codes : List Code) → found ≡ place_of wanted.now codes → seen ≡ length codes →
        result ≡ place_of wanted.now (codes ++ code.now ∷ []) }
    ensures within { ForSome result (λ place. place < seen + 1) }
{
    if found.is_some() {
        return found;
    }
    if code == wanted {
        return Some(seen);
    }
    None
}

impl Found {
    ghost use Rattle.rinex_obs.specs.Reading.{IsFound, code_places};

    /// Behind the next type, which has this code.
    pub fn with(self, code: &[u8], signal: &Signal) -> Found
        requires { self.seen < self.count }
        ensures found { (types : Types) → IsFound signal.now types self →
            IsFound signal.now
            (record { count = types.count; codes = types.codes ++ code.now ∷ [] }) result }
        ensures seen { result.seen ≡ self.seen + 1 }
        ensures count { result.count ≡ self.count }
    {
        let seen = self.seen;
        match signal {
            Signal::Single { code: wanted } => Found {
                count: self.count,
                seen: seen + 1,
                first: place_with(self.first, seen, code, wanted),
                second: None,
            },
            Signal::Dual { first, second } => Found {
                count: self.count,
                seen: seen + 1,
                first: place_with(self.first, seen, code, first),
                second: place_with(self.second, seen, code, second),
            },
        }
    }

    /// The places of the wanted codes, where they were all found.
    pub fn places(self, signal: &Signal) -> Option<Places>
        ensures places { (types : Types) → IsFound signal.now types self →
            IfSome result (λ places. ArePlaces signal.now types.codes (code_places places)) }
        ensures none { (types : Types) → IsFound signal.now types self →
            IfNone result ((places : CodePlaces) → ArePlaces signal.now types.codes places → ⊥) }
    {
        let first = self.first?;
        match signal {
            Signal::Single { .. } => Some(Places {
                first,
                second: None,
            }),
            Signal::Dual { .. } => {
                let second = self.second?;
                Some(Places {
                    first,
                    second: Some(second),
                })
            }
        }
    }
}
