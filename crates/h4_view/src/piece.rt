//! The lines that a piece of a stream adds.

ghost use Rattle.std.specs.Prelude.{◌≡◌, ◌+◌, ◌<◌, ◌^◌, None, length, IfOk};
ghost use Rattle.h4_view.specs.Shows.{Shows};
ghost use Rattle.h4_view.specs.View.{acl_limit};

use crate::details::push_details;
use crate::line::{Text, push_line, spelled_length};
use crate::links::Links;
use bt_base::NoMemory;
use h4_framing::{Framer, H4Refusal, Taken};
use std::alloc::Global;

/// Adds to the text the line of each packet that is whole with this piece. `offset` is that of the
/// next packet. The answer is why the stream was refused, if it was.
pub(crate) fn show_piece(
    alloc: Global,
    framer: &mut Framer,
    links: &mut Links,
    offset: &mut u64,
    text: &mut Text,
    piece: &[u8],
) -> Result<Option<(H4Refusal, u64)>, NoMemory>
    requires limit { framer.old.limit ≡ acl_limit }
    requires sound { framer.old.fault ≡ None }
    requires room { offset.old + length framer.old.held + length piece.now < 2 ^ 64 }
    ensures { IfOk result (λ fault. Shows framer.old framer.new links.old links.new offset.old offset.new text.old.items text.new.items piece.now fault) }
{
    let mut rest = piece;
    while !rest.is_empty() {
        match framer.take(rest) {
            Taken::Whole(unit, used) => {
                push_line(text, *offset, &unit)?;
                push_details(alloc, text, links, &unit)?;
                *offset += spelled_length(&unit) as u64;
                rest = &rest[used..];
            }
            Taken::More => return Ok(None),
            Taken::Refused(refusal, place) => return Ok(Some((refusal, place))),
        }
    }
    Ok(None)
}
