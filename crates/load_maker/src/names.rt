ghost use Rattle.std.specs.Prelude.{◌≡◌, ◌<◌};
ghost use Rattle.phrase_tree.specs.Name.{IsName};
ghost use Rattle.load_maker.specs.Names.{asp_name, place_name, plain_asp};

use phrase_tree::{Args, Asp, Name, Place};

fn place_text(number: u32) -> &'static str
    requires { number < 8 }
    ensures text { result.now ≡ place_name number }
    ensures named { IsName result.now }
{
    match number {
        0 => "p0",
        1 => "p1",
        2 => "p2",
        3 => "p3",
        4 => "p4",
        5 => "p5",
        6 => "p6",
        _ => "p7",
    }
}

fn asp_text(number: u32) -> &'static str
    requires { number < 8 }
    ensures text { result.now ≡ asp_name number }
    ensures named { IsName result.now }
{
    match number {
        0 => "a0",
        1 => "a1",
        2 => "a2",
        3 => "a3",
        4 => "a4",
        5 => "a5",
        6 => "a6",
        _ => "a7",
    }
}

/// The name of a place.
pub(crate) fn place_name(number: u32) -> Place
    requires { number < 8 }
    ensures { result ≡ place_name number }
{
    Name::read(place_text(number)).unwrap()
}

/// The name of a measurement and of its artefacts.
pub(crate) fn asp_name(number: u32) -> Name
    requires { number < 8 }
    ensures { result ≡ asp_name number }
{
    Name::read(asp_text(number)).unwrap()
}

/// The measurement of such a name.
pub(crate) fn plain_asp(number: u32) -> Asp
    requires { number < 8 }
    ensures { result ≡ plain_asp number }
{
    Asp {
        name: asp_name(number),
        args: Args::none(),
    }
}
