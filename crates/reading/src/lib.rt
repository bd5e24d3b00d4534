// Reading a sheet, by two functions that call each other: one where a network may begin, one within a network.
#![tactic(auto)]

ghost use Rattle.std.specs.Prelude.{◌≡◌, ◌<◌};
ghost use Rattle.fields.specs.Fields.{row_at};
ghost use Rattle.sheet.specs.Reading.{sheet, network, read_from};
ghost use Rattle.sheet.specs.Outcomes.{ReadOutcome};

use entries::{Opening, Progress};
use fields::Reader;
use settings::{Network, Settings};
use sheet::Reading;

// S2: what follows where a network may begin, or where field 07 of the one before may stand.
#[cycle(read_network_read_sheet)]
fn read_sheet<'a>(reader: Reader<'a>, settings: Settings) -> Reading
    ensures { result ≡ sheet (row_at reader.entry.bytes.now reader.entry.place) settings }
{
    let found = entries::next_entry(reader);
    match grammar::open_network(settings, found.entry) {
        Ok(Opening::Closes) => reading_parts::close_sheet(settings, reader.place),
        Ok(Opening::Begins(handle)) => read_network(
            reader.moved_to(found.next),
            settings,
            grammar::begin_network(handle),
            Progress::Named,
        ),
        Ok(Opening::Amends) => read_sheet(
            reader.moved_to(found.next),
            reading_parts::amend_network(settings),
        ),
        Err(fault) => reading_parts::refuse_entry(fault, found.entry, reader.place),
    }
}

// S2, S26: what follows within a network.
#[cycle(read_network_read_sheet)]
fn read_network<'a>(
    reader: Reader<'a>,
    settings: Settings,
    part: Network,
    progress: Progress,
) -> Reading
    requires { settings.count < 8 }
    ensures { result ≡ network (row_at reader.entry.bytes.now reader.entry.place) settings part progress }
{
    let found = entries::next_entry(reader);
    match grammar::fill_network(settings, part, progress, found.entry) {
        Ok(filled) => match filled.progress {
            Some(next) => read_network(reader.moved_to(found.next), settings, filled.network, next),
            None => read_sheet(
                reader.moved_to(found.next),
                reading_parts::push_network(settings, filled.network),
            ),
        },
        Err(fault) => reading_parts::refuse_entry(fault, found.entry, reader.place),
    }
}

// S13: the settings that the unread bytes of a reader say.
#[tactic(auto, unfolding(sheet::specs::Reading::read_from))]
pub fn read_from<'a>(reader: Reader<'a>) -> Reading
    ensures { result ≡ read_from reader.entry.bytes.now reader.entry.place }
{
    read_sheet(reader, Settings::blank())
}

// The settings that a sheet says.
pub fn read(bytes: &[u8]) -> Reading
    ensures { ReadOutcome bytes.now result }
{
    read_from(Reader::new(bytes))
}
