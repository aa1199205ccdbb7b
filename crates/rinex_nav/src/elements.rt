//! The numbers of a record in whole units.

ghost use Rattle.std.specs.Prelude.{◌≡◌, ◌≤◌, ◌+◌, ◌-◌, ◌^◌, ◌↔◌, ◌≤ℤ◌, ◌<ℤ◌, pos, neg_ℤ, ℕ, ℤ};
ghost use Rattle.std.specs.Prelude.{IsOk, IfOk, IfErr, IfSome, IfNone, OnSome, OnOk, slice_get};
ghost use Rattle.exact_decimal.specs.Units.{bound_of};
ghost use Rattle.gnss_model.specs.RecordBounds.{time_bound};
ghost use Rattle.grid_model.specs.Sizes.{IsWithin};
ghost use Rattle.rinex_nav.specs.FieldBounds.{Between, field_bounds, field_of, IsInside};
ghost use Rattle.rinex_nav.specs.FieldBounds.{AreInsideBefore, AreInside, IsFirstOutside};
ghost use Rattle.rinex_nav.specs.ElementsOf.{Holds, AreElements};
ghost use Rattle.rinex_nav.specs.Weeks.{IsEphemerisTime, IsAge};

use crate::record::NavRecord;
use crate::week::nearest_week;
use exact_decimal::{Decimal, Unit, to_unit_between};
use gnss_model::{
    AGEING_BOUND, ANGLE_BOUND, ANGLE_SWING_BOUND, DELAY_BOUND, DRIFT_BOUND, ECCENTRICITY_BOUND,
    Elements, GREATEST_ROOT_A, LEAST_ROOT_A, OFFSET_BOUND, RADIUS_SWING_BOUND, RATE_BOUND, WEEK,
};
use grid_model::Wide;

/// The fields of a line of broadcast orbit, or the number of the first outside its bounds.
type OrbitLine = Result<(Wide, Wide, Wide, Wide), u8>;

impl NavRecord {
    /// The fields in their units; the number of the first field outside its bounds, from 1 to 20,
    /// where there is one.
    pub fn elements(&self) -> Result<Elements, u8>
        ensures elements { IfOk result (AreElements self.now) }
        ensures inside { IsOk result ↔ AreInside self.now.fields }
        ensures outside { (k : ℕ) → (result ≡ Err k) ↔ IsFirstOutside self.now.fields k }
    {
        let (af0, af1, af2) = self.clock()?;
        let (crs, dn, m0) = self.orbit_1()?;
        let (cuc, e, cus, root_a) = self.orbit_2()?;
        let (toe_week, cic, om0, cis) = self.orbit_3()?;
        let (i0, crc, omega, om_dot) = self.orbit_4()?;
        let idot = self.amount(19, Unit::Rate, RATE_BOUND)?;
        let tgd = self.amount(20, Unit::Clock, DELAY_BOUND)?;
        Ok(Elements {
            toc: self.toc,
            week_start: nearest_week(self.toc, toe_week.lo),
            toe_week,
            af0,
            af1,
            af2,
            tgd,
            root_a,
            e,
            m0,
            dn,
            cuc,
            cus,
            crc,
            crs,
            cic,
            cis,
            i0,
            idot,
            om0,
            om_dot,
            omega,
        })
    }

    /// How far the time is from the ephemeris time, rounded down to ps. None where the ephemeris
    /// time in its week is outside its bounds.
    pub fn age(&self, tag: i128) -> Option<i128>
        requires from { pos 0 ≤ℤ tag }
        requires under { tag <ℤ pos time_bound }
        ensures age { (age : ℤ) → (result ≡ Some age) ↔ IsAge self.now tag age }
        ensures none { IfNone result (¬ IsInside self.now.fields 11) }
    {
        let time = self.ephemeris_time()?;
        Some((tag - time).abs())
    }

    /// The ephemeris time, rounded down to ps. None where its time in the week is outside its
    /// bounds.
    fn ephemeris_time(&self) -> Option<i128>
        ensures time { IfSome result (IsEphemerisTime self.now) }
        ensures size { IfSome result (IsWithin (10 ^ 22)) }
        ensures none { IfNone result (¬ IsInside self.now.fields 11) }
    {
        let toe = self.time_in_week()?;
        Some(nearest_week(self.toc, toe.lo) + toe.lo)
    }

    /// af0, af1 and af2.
    fn clock(&self) -> Result<(Wide, Wide, Wide), u8>
        ensures before { OnOk result (AreInsideBefore self.now.fields 4) }
        ensures fields { IfOk result (λ t. Holds self.now.fields 1 t.0 × Holds self.now.fields 2 t.1
            × Holds self.now.fields 3 t.2) }
        ensures outside { IfErr result (IsFirstOutside self.now.fields) }
    {
        let af0 = self.amount(1, Unit::Clock, OFFSET_BOUND)?;
        let af1 = self.amount(2, Unit::Rate, DRIFT_BOUND)?;
        let af2 = self.amount(3, Unit::Drift, AGEING_BOUND)?;
        Ok((af0, af1, af2))
    }

    /// Crs, dn and M0.
    fn orbit_1(&self) -> Result<(Wide, Wide, Wide), u8>
        requires { AreInsideBefore self.now.fields 4 }
        ensures before { OnOk result (AreInsideBefore self.now.fields 7) }
        ensures fields { IfOk result (λ t. Holds self.now.fields 4 t.0 × Holds self.now.fields 5 t.1
            × Holds self.now.fields 6 t.2) }
        ensures outside { IfErr result (IsFirstOutside self.now.fields) }
    {
        let crs = self.amount(4, Unit::Length, RADIUS_SWING_BOUND)?;
        let dn = self.amount(5, Unit::Rate, RATE_BOUND)?;
        let m0 = self.amount(6, Unit::Ratio, ANGLE_BOUND)?;
        Ok((crs, dn, m0))
    }

    /// Cuc, e, Cus and sqrtA.
    fn orbit_2(&self) -> OrbitLine
        requires { AreInsideBefore self.now.fields 7 }
        ensures before { OnOk result (AreInsideBefore self.now.fields 11) }
        ensures fields { IfOk result (λ t. Holds self.now.fields 7 t.0 × Holds self.now.fields 8 t.1
            × Holds self.now.fields 9 t.2 × Holds self.now.fields 10 t.3) }
        ensures outside { IfErr result (IsFirstOutside self.now.fields) }
    {
        let cuc = self.amount(7, Unit::Ratio, ANGLE_SWING_BOUND)?;
        let e = self.field(8, Unit::Ratio, 0, ECCENTRICITY_BOUND)?;
        let cus = self.amount(9, Unit::Ratio, ANGLE_SWING_BOUND)?;
        let root_a = self.field(10, Unit::RootA, LEAST_ROOT_A, GREATEST_ROOT_A)?;
        Ok((cuc, e, cus, root_a))
    }

    /// toe, Cic, Om0 and Cis.
    fn orbit_3(&self) -> OrbitLine
        requires { AreInsideBefore self.now.fields 11 }
        ensures before { OnOk result (AreInsideBefore self.now.fields 15) }
        ensures fields { IfOk result (λ t. Holds self.now.fields 11 t.0
            × Holds self.now.fields 12 t.1 × Holds self.now.fields 13 t.2
            × Holds self.now.fields 14 t.3) }
        ensures outside { IfErr result (IsFirstOutside self.now.fields) }
    {
        let Some(toe) = self.time_in_week() else {
            return Err(11);
        };
        let cic = self.amount(12, Unit::Ratio, ANGLE_SWING_BOUND)?;
        let om0 = self.amount(13, Unit::Ratio, ANGLE_BOUND)?;
        let cis = self.amount(14, Unit::Ratio, ANGLE_SWING_BOUND)?;
        Ok((toe, cic, om0, cis))
    }

    /// i0, Crc, omega and OmDot.
    fn orbit_4(&self) -> OrbitLine
        requires { AreInsideBefore self.now.fields 15 }
        ensures before { OnOk result (AreInsideBefore self.now.fields 19) }
        ensures fields { IfOk result (λ t. Holds self.now.fields 15 t.0
            × Holds self.now.fields 16 t.1 × Holds self.now.fields 17 t.2
            × Holds self.now.fields 18 t.3) }
        ensures outside { IfErr result (IsFirstOutside self.now.fields) }
    {
        let i0 = self.amount(15, Unit::Ratio, ANGLE_BOUND)?;
        let crc = self.amount(16, Unit::Length, RADIUS_SWING_BOUND)?;
        let omega = self.amount(17, Unit::Ratio, ANGLE_BOUND)?;
        let om_dot = self.amount(18, Unit::Rate, RATE_BOUND)?;
        Ok((i0, crc, omega, om_dot))
    }

    /// The field with a number, within an amount.
    fn amount(&self, number: u8, unit: Unit, bound: i128) -> Result<Wide, u8>
        requires from { 1 ≤ number }
        requires to { number ≤ 20 }
        requires size { IsWithin (bound_of unit) bound }
        requires row { slice_get field_bounds (number - 1)
            ≡ Some (Between unit (neg_ℤ bound) bound) }
        requires before { AreInsideBefore self.now.fields number }
        ensures before { OnOk result (AreInsideBefore self.now.fields (number + 1)) }
        ensures field { IfOk result (Holds self.now.fields number) }
        ensures outside { IfErr result (IsFirstOutside self.now.fields) }
    {
        self.field(number, unit, -bound, bound)
    }

    /// The field with a number, between two bounds.
    fn field(&self, number: u8, unit: Unit, low: i128, high: i128) -> Result<Wide, u8>
        requires from { 1 ≤ number }
        requires to { number ≤ 20 }
        requires low_size { IsWithin (bound_of unit) low }
        requires high_size { IsWithin (bound_of unit) high }
        requires row { slice_get field_bounds (number - 1) ≡ Some (Between unit low high) }
        requires before { AreInsideBefore self.now.fields number }
        ensures before { OnOk result (AreInsideBefore self.now.fields (number + 1)) }
        ensures field { IfOk result (Holds self.now.fields number) }
        ensures outside { IfErr result (IsFirstOutside self.now.fields) }
    {
        match to_unit_between(self.decimal(number), unit, low, high) {
            Some(field) => Ok(field),
            None => Err(number),
        }
    }

    /// The decimal of the field with a number.
    fn decimal(&self, number: u8) -> Decimal
        requires from { 1 ≤ number }
        requires to { number ≤ 20 }
        ensures { result ≡ field_of self.now.fields number }
    {
        self.fields[usize::from(number - 1)]
    }

    /// The ephemeris time in its week, from 0 to under a week.
    fn time_in_week(&self) -> Option<Wide>
        ensures inside { OnSome result (IsInside self.now.fields 11) }
        ensures field { IfSome result (Holds self.now.fields 11) }
        ensures none { IfNone result (¬ IsInside self.now.fields 11) }
    {
        let toe = to_unit_between(self.decimal(11), Unit::Time, 0, WEEK)?;
        if toe.lo >= WEEK {
            return None;
        }
        Some(toe)
    }
}
