//! The six places through which a shelf's files are read and written.

ghost use Rattle.std.specs.Prelude.{◌≡◌};

/// A place for one open file, named for what the file is.
#[derive(Clone, Copy, Debug, PartialEq, Eq)]
pub enum Slot {
    Settings,
    Nav,
    Obs,
    Station,
    Rows,
    Log,
}

/// A value for each slot.
#[derive(Clone, Copy, Debug, Drop)]
pub struct Slots<T> {
    pub settings: T,
    pub nav: T,
    pub obs: T,
    pub station: T,
    pub rows: T,
    pub log: T,
}

impl<T: Copy> Slots<T> {
    ghost use Rattle.outer_io.specs.Slots.{all};

    /// The same value for each slot.
    pub fn of_each(value: T) -> Slots<T>
        ensures { result ≡ all value }
    {
        Slots {
            settings: value,
            nav: value,
            obs: value,
            station: value,
            rows: value,
            log: value,
        }
    }
}

impl<T> Slots<T> {
    ghost use Rattle.outer_io.specs.Slots.{at};

    /// The value at the slot.
    pub fn at(&self, slot: Slot) -> &T
        ensures { result.now ≡ at self.now slot }
    {
        match slot {
            Slot::Settings => &self.settings,
            Slot::Nav => &self.nav,
            Slot::Obs => &self.obs,
            Slot::Station => &self.station,
            Slot::Rows => &self.rows,
            Slot::Log => &self.log,
        }
    }
}

impl<T: Drop> Slots<T> {
    ghost use Rattle.outer_io.specs.Slots.{put};

    /// Puts another value at the slot.
    pub fn put(&mut self, slot: Slot, value: T)
        ensures { self.new ≡ put self.old slot value }
    {
        match slot {
            Slot::Settings => self.settings = value,
            Slot::Nav => self.nav = value,
            Slot::Obs => self.obs = value,
            Slot::Station => self.station = value,
            Slot::Rows => self.rows = value,
            Slot::Log => self.log = value,
        }
    }
}

impl<T> Slots<Option<T>> {
    /// What is at the slot, to be used in its place. It says nothing of the value.
    pub(crate) fn at_mut(&mut self, slot: Slot) -> Option<&mut T> {
        match slot {
            Slot::Settings => self.settings.as_mut(),
            Slot::Nav => self.nav.as_mut(),
            Slot::Obs => self.obs.as_mut(),
            Slot::Station => self.station.as_mut(),
            Slot::Rows => self.rows.as_mut(),
            Slot::Log => self.log.as_mut(),
        }
    }
}
