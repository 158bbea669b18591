// The flags of an image in two numberings: into document 01's numbering, and back.
#![tactic(auto)]

ghost use Rattle.std.specs.Prelude.{◌≡◌, ◌≤◌, ◌<◌, true, false, SomeIff, MatchOption, IfErr};
ghost use Rattle.format.specs.Fault.{unless, outcome};
ghost use Rattle.flags.specs.Flags.{numbering, known, valid_flags, flags_answer, flags_in, flags_out};
ghost use Rattle.flags.specs.Flags as definition;

use format::Fault;

// The numberings of the flags: document 01's, which is that of the freedesktop note, and GTK's.
#[derive(Clone, Copy)]
enum Numbering {
    Freedesktop,
    Gtk,
}

impl Numbering {
    // The numbering of a number, where that is known.
    fn new(number: u32) -> Option<Numbering>
        ensures { SomeIff result (known number ≡ true) (numbering number) }
    {
        match number {
            0 => Some(Numbering::Freedesktop),
            1 => Some(Numbering::Gtk),
            _ => None,
        }
    }
}

// From GTK's numbering to document 01's: XPM and SVG move up by a bit, bitmap moves below them,
// icon file stays.
fn from_gtk(flags: u16) -> u16
    requires { flags ≤ 15 }
    ensures { result ≡ definition.renumbered Numbering.Gtk Numbering.Freedesktop flags }
{
    (flags & 0b0011) << 1 | (flags & 0b0100) >> 2 | flags & 0b1000
}

// From document 01's numbering to GTK's: XPM and SVG move down by a bit, bitmap moves above them,
// icon file stays.
fn to_gtk(flags: u16) -> u16
    requires { flags ≤ 15 }
    ensures { result ≡ definition.renumbered Numbering.Freedesktop Numbering.Gtk flags }
{
    (flags & 0b0110) >> 1 | (flags & 0b0001) << 2 | flags & 0b1000
}

// The flags of the numbering `from` in the numbering `to`.
fn renumbered(flags: u16, from: Numbering, to: Numbering) -> u16
    requires { flags ≤ 15 }
    ensures { result ≡ definition.renumbered from to flags }
{
    match (from, to) {
        (Numbering::Freedesktop, Numbering::Gtk) => to_gtk(flags),
        (Numbering::Gtk, Numbering::Freedesktop) => from_gtk(flags),
        _ => flags,
    }
}

// The same by the numbers of numberings; none where the flags are above 15 or a numbering is
// unknown.
fn converted(flags: u16, from: u32, to: u32) -> Option<u16>
    ensures { MatchOption result (valid_flags flags from to ≡ false) (λ moved. (valid_flags flags from to ≡ true) × (moved ≡ definition.renumbered (numbering from) (numbering to) flags)) }
{
    if 15 < flags {
        return None;
    }
    Some(renumbered(flags, Numbering::new(from)?, Numbering::new(to)?))
}

// The same, refused by 27 where there is none.
fn answer(flags: u16, from: u32, to: u32) -> Result<u16, Fault>
    ensures { result ≡ outcome (unless (valid_flags flags from to) 27 0) (definition.renumbered (numbering from) (numbering to) flags) }
{
    let refusal = Fault {
        number: 27,
        place: 0,
    };
    converted(flags, from, to).ok_or(refusal)
}

// Raw flags of a numbering in document 01's. A refusal is 27 at 0.
pub fn flags_in(raw: u16, numbering: u32) -> Result<u16, Fault>
    ensures answer { flags_answer result ≡ flags_in raw numbering }
    ensures refused { IfErr result (λ fault. 0 < fault.number) }
{
    answer(raw, numbering, 0)
}

// Flags of document 01's numbering as raw flags of another. A refusal is 27 at 0.
pub fn flags_out(flags: u16, numbering: u32) -> Result<u16, Fault>
    ensures answer { flags_answer result ≡ flags_out flags numbering }
    ensures refused { IfErr result (λ fault. 0 < fault.number) }
{
    answer(flags, 0, numbering)
}
