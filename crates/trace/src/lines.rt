// The lines of the program, each put into a lent block after what it holds.
ghost use Rattle.std.specs.Prelude.{◌≡◌, ◌+◌, ◌^◌, ◌≤◌, ◌<◌, ◌∷◌, ◌++◌, length};
ghost use Rattle.records.specs.Records.{records_at};
ghost use Rattle.text.specs.Line.{HasRoom, Appended};
ghost use Rattle.text.specs.Text.{blank, decimal};
ghost use Rattle.trace.specs.declared.Item.{Item};
ghost use Rattle.trace.specs.Events.{call_of};
ghost use Rattle.trace.specs.Lines.{config_line, stop_line, polls, said_of};
ghost use Rattle.trace.specs.Trace.{TellsItem, TellsAt, TellsFirst};

use crate::events::{event_at, run_event};
use crate::splitting::events_from;
use crate::{Event, Item, Point, Trace};
use text::{Line, Text};

// `config`, the answer and what is shown beside it.
fn put_config(line: &mut Line, answer: u8, shown: usize)
    requires { HasRoom line.old 601 }
    ensures line { Appended line.old (config_line answer shown) line.new }
    ensures room { line.new.length ≤ line.old.length + 601 }
{
    line.text(b"config ");
    line.small(answer);
    line.byte(Text::BLANK);
    line.decimal(shown as u64);
    line.byte(Text::NEWLINE);
}

// `stop` and a place.
fn put_stop(line: &mut Line, at: usize)
    requires { HasRoom line.old 601 }
    ensures line { Appended line.old (stop_line at) line.new }
    ensures room { line.new.length ≤ line.old.length + 601 }
{
    line.text(b"stop ");
    line.decimal(at as u64);
    line.byte(Text::NEWLINE);
}

fn is_poll(event: Event) -> bool
    ensures { result ≡ polls (call_of event) }
{
    matches!(event, Event::Poll { .. })
}

// The number of a line and the answer of its event.
fn put_answer(line: &mut Line, number: u64, answer: u8)
    requires { HasRoom line.old 601 }
    ensures line { Appended line.old (decimal number ++ (blank ∷ decimal answer)) line.new }
    ensures room { line.new.length ≤ line.old.length + 24 }
{
    line.decimal(number);
    line.byte(Text::BLANK);
    line.small(answer);
}

// The mode polled, or the records handed out.
fn put_said(line: &mut Line, polled: bool, mode: u8, buffer: &[u8; Trace::LENT], count: usize)
    requires count_bound { count ≤ 48 }
    requires at_in_bounds { HasRoom line.old 577 }
    ensures line { Appended line.old (said_of polled mode (records_at count buffer.now)) line.new }
    ensures room { line.new.length ≤ line.old.length + 576 }
{
    if polled {
        line.byte(Text::BLANK);
        line.small(mode);
    } else {
        line.records(buffer, count);
    }
}

// Runs an event, whose place the point has, and puts its line into the block; the next event's place is given.
fn tell(point: Point, event: Event, next: usize, block: &mut [u8]) -> Point
    requires number_bound { point.number < 2 ^ 63 }
    requires length_in_bounds { point.length + 601 ≤ length block.old }
    ensures { TellsItem point (Item.Known event) next result block.old block.new }
{
    let mut buffer = [0u8; Trace::LENT];
    let outcome = run_event(point.manager, event, &mut buffer);
    let mut line = Line {
        bytes: block,
        length: point.length,
    };
    put_answer(&mut line, point.number, outcome.number());
    put_said(
        &mut line,
        is_poll(event),
        outcome.mode,
        &buffer,
        outcome.count,
    );
    line.byte(Text::NEWLINE);
    point.moved(outcome.manager, next, line.length)
}

// Puts the line of what stands at the point's place of the input into the block.
pub(crate) fn event_line(input: &[u8], point: Point, block: &mut [u8]) -> Point
    requires number_bound { point.number < 2 ^ 63 }
    requires length_in_bounds { point.length + 601 ≤ length block.old }
    ensures { TellsAt input.now point result block.old block.new }
{
    let found = event_at(input, point.next);
    match found.item {
        Item::End => point.moved(point.manager, input.len(), point.length),
        Item::Bad => {
            let mut line = Line {
                bytes: block,
                length: point.length,
            };
            put_stop(&mut line, point.next);
            point.moved(point.manager, input.len(), line.length)
        }
        Item::Known(event) => tell(point, event, found.next, block),
    }
}

// The first line, at the front of the block: the sheet is read, and the manager started.
pub(crate) fn first_line(input: &[u8], block: &mut [u8]) -> Point
    requires { 601 ≤ length block.old }
    ensures { TellsFirst input.now result block.old block.new }
{
    let at = events_from(input, 0);
    let reading = manager::read(manager::new(), &input[..at]);
    let (shown, next) = match reading.answer {
        Ok(()) => (reading.count, at),
        Err(_) => (reading.place, input.len()),
    };
    let mut line = Line {
        bytes: block,
        length: 0,
    };
    put_config(&mut line, reading.number(), shown);
    Point {
        manager: manager::start(reading.manager).manager,
        next,
        number: Point::FIRST,
        length: line.length,
    }
}
