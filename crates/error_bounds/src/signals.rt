//! Which signals are used.

ghost use Rattle.std.specs.Prelude.{◌≡◌, false, true, is_some, IfOk, IfNone, IfSome};
ghost use Rattle.toml.specs.Data.{as_str};
ghost use Rattle.toml.specs.View.{items_view};
ghost use Rattle.error_bounds.specs.Forms.{all_members, of_kind, codes_for, dual_codes, mode_word, code_list, message_word, galileo_list};
ghost use Rattle.error_bounds.specs.Sizes.{is_code, is_capital, band_of, are_codes, are_codes_on, are_codes_of};
ghost use Rattle.gnss_model.specs.declared.systems.Message.{Message};

use crate::fault::Fault;
use crate::form::Form;
use gnss_model::{Message, Signal};
use toml::Value;

/// Whether one code is used, or two.
#[derive(Clone, Copy)]
pub enum Mode {
    Single,
    Dual,
}

/// `"single"` or `"dual"`.
#[derive(Clone, Copy)]
pub struct ModeWord;

/// A list of one code in single mode, and of two in dual mode.
#[derive(Clone, Copy)]
pub struct Codes {
    pub mode: Mode,
}

/// `"F/NAV"` or `"I/NAV"`.
#[derive(Clone, Copy)]
pub struct MessageWord;

/// A list of codes of Galileo: of one on E1 in single mode, and in dual mode of that and one on the
/// other band of the message.
#[derive(Clone, Copy)]
pub struct GalileoCodes {
    pub mode: Mode,
    pub message: Message,
}

impl Form for ModeWord {
    type Output = Mode;

    ghost reads = { λ form d r. r ≡ mode_word d };

    ghost allows = { λ form mode. Unit {0} };

    fn read(&self, value: &Value) -> Result<Mode, Fault> {
        let Some(text) = value.as_str() else {
            return Err(Fault::WrongKind);
        };
        if text == "single" {
            Ok(Mode::Single)
        } else if text == "dual" {
            Ok(Mode::Dual)
        } else {
            Err(Fault::Outside)
        }
    }
}

impl Form for Codes {
    type Output = Signal;

    ghost reads = { λ form d r. r ≡ code_list form.mode d };

    ghost allows = { λ form signal. are_codes signal ≡ true };

    fn read(&self, value: &Value) -> Result<Signal, Fault> {
        let Some(items) = value.as_array() else {
            return Err(Fault::WrongKind);
        };
        if !are_texts(items) {
            return Err(Fault::WrongKind);
        }
        match self.mode {
            Mode::Single => single(items),
            Mode::Dual => dual(items, b'2'),
        }
    }
}

impl Form for MessageWord {
    type Output = Message;

    ghost reads = { λ form d r. r ≡ message_word d };

    ghost allows = { λ form message. Unit {0} };

    fn read(&self, value: &Value) -> Result<Message, Fault> {
        let Some(text) = value.as_str() else {
            return Err(Fault::WrongKind);
        };
        if text == "F/NAV" {
            Ok(Message::Fnav)
        } else if text == "I/NAV" {
            Ok(Message::Inav)
        } else {
            Err(Fault::Outside)
        }
    }
}

impl Form for GalileoCodes {
    type Output = Signal;

    ghost reads = { λ form d r. r ≡ galileo_list form.mode form.message d };

    ghost allows = { λ form signal. are_codes_of form.message signal ≡ true };

    fn read(&self, value: &Value) -> Result<Signal, Fault> {
        let Some(items) = value.as_array() else {
            return Err(Fault::WrongKind);
        };
        if !are_texts(items) {
            return Err(Fault::WrongKind);
        }
        match self.mode {
            Mode::Single => single(items),
            Mode::Dual => match self.message {
                Message::Fnav => dual(items, b'5'),
                Message::Inav => dual(items, b'7'),
            },
        }
    }
}

/// The signal of a list of one code.
fn single(items: &[Value]) -> Result<Signal, Fault>
    requires { is_some (all_members as_str (items_view items.now)) ≡ true }
    ensures value { result
        ≡ of_kind (all_members as_str (items_view items.now)) (codes_for Mode.Single) }
    ensures codes { IfOk result (λ signal. are_codes signal ≡ true) }
    ensures galileo { IfOk result
        (λ signal. (message : Message) → are_codes_of message signal ≡ true) }
{
    let [item] = items else {
        return Err(Fault::Outside);
    };
    let Some(text) = item.as_str() else {
        return Err(Fault::WrongKind);
    };
    match code(text, b'1') {
        Some(code) => Ok(Signal::Single { code }),
        None => Err(Fault::Outside),
    }
}

/// The signal of a list of two codes, of which the second is on this band.
fn dual(items: &[Value], band: u8) -> Result<Signal, Fault>
    requires { is_some (all_members as_str (items_view items.now)) ≡ true }
    ensures value { result ≡ of_kind (all_members as_str (items_view items.now)) (dual_codes band) }
    ensures codes { IfOk result (λ signal. are_codes_on band signal ≡ true) }
    ensures galileo { IfOk result
        (λ signal. (message : Message) → band_of message ≡ band → are_codes_of message signal ≡ true) }
{
    let [first, second] = items else {
        return Err(Fault::Outside);
    };
    let (Some(first), Some(second)) = (first.as_str(), second.as_str()) else {
        return Err(Fault::WrongKind);
    };
    match (code(first, b'1'), code(second, band)) {
        (Some(first), Some(second)) => Ok(Signal::Dual { first, second }),
        _ => Err(Fault::Outside),
    }
}

/// The code of a pseudorange on a band: `C`, the digit of the band and a capital letter.
fn code(text: &str, band: u8) -> Option<[u8; 3]>
    ensures none { IfNone result (is_code band text.now ≡ false) }
    ensures some { IfSome result (λ code. (code ≡ text.now) × (is_code band text.now ≡ true)) }
{
    let [kind, digit, letter] = text.as_bytes() else {
        return None;
    };
    if *kind == b'C' && *digit == band && is_capital(*letter) {
        Some([*kind, *digit, *letter])
    } else {
        None
    }
}

/// Whether a byte is a letter from A to Z.
fn is_capital(byte: u8) -> bool
    ensures { result ≡ is_capital byte }
{
    b'A' <= byte && byte <= b'Z'
}

/// Whether each member is a text.
fn are_texts(items: &[Value]) -> bool
    ensures { result ≡ is_some (all_members as_str (items_view items.now)) }
{
    'items: for item in items {
        if item.as_str().is_none() {
            return false;
        }
    }
    true
}
