//! Writing fields at the end of a vector that has room for them.
#![tactic(auto, using(crate::proofs::Readings::decimals))]

ghost use Rattle.std.specs.Prelude.{ℕ, ◌+◌, ◌<◌, List, [], ◌∷◌, decimal, length};
ghost use Rattle.std.specs.Fmt.{signed_decimal};
ghost use Rattle.jup_wire.specs.Fields.{name_text, switch_text};
ghost use Rattle.jup_wire.specs.Streams.{HasRoom, Appends};

use jup_value::{Label, Name};

/// What a field may spell.
pub(crate) trait Spelled {
    ghost text: { Self → List ℕ };

    /// No value's text is longer.
    ghost most: { ℕ };

    /// Appends the one spelling of the value.
    fn push_to(&self, out: &mut Vec<u8>)
        requires { HasRoom out.old most }
        ensures { Appends out.old out.new (text self.now) most };
}

/// Appends bytes.
pub(crate) fn push(out: &mut Vec<u8>, bytes: &[u8])
    requires { HasRoom out.old (length bytes.now) }
    ensures { Appends out.old out.new bytes.now (length bytes.now) }
{
    let _ = out.extend_from_slice(bytes);
}

/// Appends a space and a field.
pub(crate) fn push_field<T: Spelled>(out: &mut Vec<u8>, value: &T)
    requires { HasRoom out.old (T.most + 1) }
    ensures { Appends out.old out.new (32 ∷ T.text value.now) (T.most + 1) }
{
    out.push_reserved(b' ');
    value.push_to(out);
}

/// Appends one digit.
fn push_digit(out: &mut Vec<u8>, digit: u32)
    requires digit { digit < 10 }
    requires room { HasRoom out.old 1 }
    ensures { Appends out.old out.new ((48 + digit) ∷ []) 1 }
{
    out.push_reserved(b'0' + digit as u8);
}

/// Appends a number's digits, two at a time.
fn push_digits(out: &mut Vec<u8>, n: u32)
    requires { HasRoom out.old (length (decimal n)) }
    ensures { Appends out.old out.new (decimal n) (length (decimal n)) }
{
    if n < 10 {
        push_digit(out, n);
    } else if n < 100 {
        push_digit(out, n / 10);
        push_digit(out, n % 10);
    } else {
        push_digits(out, n / 100);
        push_digit(out, n / 10 % 10);
        push_digit(out, n % 10);
    }
}

impl Spelled for u32 {
    ghost text = { decimal };

    ghost most = { 10 };

    fn push_to(&self, out: &mut Vec<u8>) {
        push_digits(out, *self);
    }
}

impl Spelled for u16 {
    ghost text = { decimal };

    ghost most = { 5 };

    fn push_to(&self, out: &mut Vec<u8>) {
        push_digits(out, u32::from(*self));
    }
}

impl Spelled for char {
    ghost text = { decimal };

    ghost most = { 7 };

    fn push_to(&self, out: &mut Vec<u8>) {
        push_digits(out, u32::from(*self));
    }
}

impl Spelled for i32 {
    ghost text = { signed_decimal };

    ghost most = { 11 };

    fn push_to(&self, out: &mut Vec<u8>) {
        let value = *self;
        if value < 0 {
            push(out, b"-");
            push_digits(out, value.unsigned_abs());
        } else {
            push_digits(out, value.unsigned_abs());
        }
    }
}

impl Spelled for bool {
    ghost text = { switch_text };

    ghost most = { 3 };

    fn push_to(&self, out: &mut Vec<u8>) {
        if *self {
            push(out, b"on");
        } else {
            push(out, b"off");
        }
    }
}

impl Spelled for Name {
    ghost text = { name_text };

    ghost most = { 21 };

    fn push_to(&self, out: &mut Vec<u8>) {
        self.site.push_to(out);
        push(out, b".");
        self.number.push_to(out);
    }
}

impl Spelled for Label {
    ghost use Rattle.std.specs.Prelude.{List, ℕ};
    ghost use Rattle.jup_limits.specs.Limits.{longest_label};

    ghost text = { λ (label : List ℕ). label };

    ghost most = { longest_label };

    fn push_to(&self, out: &mut Vec<u8>) {
        push(out, self.bytes());
    }
}
