//! Sources that give little at a time or not all of a text, and the streams of std.
ghost use Rattle.std.specs.Prelude.{◌<◌};

use super::calling::{PLAIN, PLAIN_WRITTEN, ROOM, called, is_driven};
use flow_cli::Status;
use flow_io::{StdSink, StdSource};
use std::alloc::AllocError;
use std::sync::Wait;
use std::thread::Threads;
use test_doubles::{CutSource, MemSink, MemSource};

/// Whether the plain path comes out the same in pieces of that size.
fn is_plain<R: AllocGlobal + Threads + Wait + Sync>(rt: &R, size: usize) -> Result<bool, AllocError>
    requires { 0 < size }
{
    let bytes = PLAIN.as_bytes().to_vec(rt.alloc())?;
    let mut source = CutSource::new(bytes, size);
    is_driven(rt, &mut source, Status::Fine, PLAIN_WRITTEN)
}

#[test]
fn pieces_make_no_difference(rt: HostRuntime) {
    assert!(rt; matches!(is_plain(&rt, 1), Ok(true)));
    assert!(rt; matches!(is_plain(&rt, 2), Ok(true)));
    assert!(rt; matches!(is_plain(&rt, 7), Ok(true)));
}

#[test]
fn std_streams_are_read(rt: HostRuntime) {
    let mut source = StdSource::new(PLAIN.as_bytes());
    let driven = is_driven(&rt, &mut source, Status::Fine, PLAIN_WRITTEN);
    assert!(rt; matches!(driven, Ok(true)));
}

#[test]
fn std_streams_are_written(rt: HostRuntime) {
    let mut written = Vec::new(rt.alloc());
    let mut source = StdSource::new(b"".as_slice());
    let mut sink = StdSink::new(&mut written);
    let ended = called(&rt, "flow check", &mut source, &mut sink);
    assert!(rt; matches!(ended, Ok(Status::Input)));
    assert_eq!(rt;
        written.as_slice(),
        b"refused: expected declaration 0\n".as_slice()
    );
}

/// The order desk of the examples.
const ORDER_DESK: &str = "event receive, check_form, ask_back, register;
event credit_hold, credit_low, credit_full, credit_ok;
event reserve, backorder, pick, pack, weigh;
event label_home, label_abroad, customs, book_van, book_mail;
event invoice, pay_card, pay_transfer, remind, post_payment;
event ship, track, notify_mail, notify_text, close_order, archive, survey;

flow entry = receive * check_form * (ask_back + nop) * register;
flow credit = iso(credit_hold * (credit_low + credit_full) * credit_ok);
flow goods = (reserve + backorder) * iso(pick * pack * weigh)
           * (label_home + label_abroad * customs) * (book_van + book_mail);
flow money = invoice * (pay_card + pay_transfer * remind)
           * post_payment * ins paid(order_1);

goal entry * (credit | goods | money) * ?paid(order_1) * ship
   * (track | notify_mail | notify_text) * close_order * (archive | survey);

constraint precedes credit_ok pick;
constraint precedes post_payment book_van;
constraint precedes archive survey;
constraint needs label_abroad pay_transfer;
constraint needs credit_low pay_card;
";

/// How a check of that text ends.
fn checked<R: AllocGlobal + Threads + Wait + Sync>(
    rt: &R,
    text: &[u8],
) -> Result<Status, AllocError> {
    let mut source = MemSource::new(text.to_vec(rt.alloc())?);
    let mut sink = MemSink::new(rt.alloc(), ROOM)?;
    called(rt, "flow check", &mut source, &mut sink)
}

#[test]
fn a_text_that_is_cut_is_answered(rt: HostRuntime) {
    let text = ORDER_DESK.as_bytes();
    for end in 0..text.len() {
        let ended = checked(&rt, &text[..end]);
        assert!(rt;
            matches!(ended, Ok(Status::Fine | Status::No | Status::Input)),
            "at {end}"
        );
    }
}
