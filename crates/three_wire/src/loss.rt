//! Which packets a line loses.

ghost use Rattle.std.specs.Prelude.{◌≡◌};
ghost use Rattle.wire_model.specs.Draws.{loses, drawn_on, draws_from};

use draws::Draws;

/// The draws of a line: those of a number, or none.
pub(crate) fn draws_from(number: Option<u32>) -> Option<Draws>
    ensures { result ≡ draws_from number }
{
    match number {
        Some(number) => Some(Draws::new(number)),
        None => None,
    }
}

/// Whether the next packet is lost; without draws none is.
pub(crate) fn loses(draws: &mut Option<Draws>) -> bool
    ensures lost { result ≡ loses draws.old }
    ensures on { draws.new ≡ drawn_on draws.old }
{
    match draws {
        None => false,
        Some(draws) => draws.draw() % 4 == 0,
    }
}
