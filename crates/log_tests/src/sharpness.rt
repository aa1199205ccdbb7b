//! The laws of sharpness hold for the rows of GPS satellites.

use sat_rows::GpsRows;
use sharpness_laws::{clear_boxes_are_shown, logs_leave_nothing_clear, runs_leave_nothing_clear};

#[test]
fn laws_hold_for_gps_rows() {
    clear_boxes_are_shown::<GpsRows>();
    runs_leave_nothing_clear::<GpsRows>();
    logs_leave_nothing_clear::<GpsRows>();
}
