//! `05 cc ll ss hh hh rr k p..`: the slot is 0000 for a static method alone, and FF for rr says that nothing is returned.
ghost use Rattle.std.specs.Prelude.{◌≡◌};
ghost use Rattle.meaning.specs.Reading.{is_slot};
ghost use Rattle.package.specs.Judging.{slot_in, method_declared};
ghost use Rattle.package.specs.Elements.{result_in, method_in};

use crate::counted_bytes::{are_counted, up_to};
use crate::field::mode_of;
use crate::{Earlier, Element};
use tables::Method;
use text::Frame;

fn slot_of(frame: &Frame) -> u16
    ensures { result ≡ slot_in frame.now }
{
    u16::from(frame.bytes[4]) * 256 + u16::from(frame.bytes[5])
}

#[tactic(auto, unfolding(meaning::specs::Reading::is_slot))]
fn is_slot(mode: u8, slot: u16) -> bool
    ensures { result ≡ is_slot mode slot }
{
    if mode == 1 { slot == 0 } else { 0 < slot }
}

fn result_of(byte: u8) -> Option<u8>
    ensures { result ≡ result_in byte }
{
    if byte == 0xFF { None } else { Some(byte) }
}

impl Element for Method {
    const KIND: u8 = 5;

    ghost KIND = { 5 };

    ghost of = { method_in };

    ghost is_declared = { λ earlier. method_declared earlier.domains earlier.classes };

    fn of(frame: &Frame) -> Self {
        let [
            _,
            class,
            label,
            mode,
            _,
            _,
            result,
            count,
            first,
            second,
            third,
            fourth,
            fifth,
            sixth,
            ..
        ] = frame.bytes;
        Method {
            class,
            label,
            slot: slot_of(frame),
            result: result_of(result),
            mode: mode_of(mode),
            parameter_count: up_to(6, count),
            parameters: [first, second, third, fourth, fifth, sixth],
        }
    }

    fn is_declared(frame: &Frame, earlier: &Earlier, _before: usize) -> bool {
        let [_, class, label, mode, _, _, result, ..] = frame.bytes;
        earlier.is_class(class)
            && earlier.is_domain(label)
            && mode <= 1
            && is_slot(mode, slot_of(frame))
            && (result == 0xFF || earlier.is_class(result))
            && are_counted(frame, 7, 6, earlier.classes)
    }
}
