ghost use Rattle.std.specs.Prelude.{◌≡◌, ◌<◌, ◌++◌, ◌∷◌, [], ℕ, Bool, List, Some, length, IfOk, OnOk, IfErr, true, false};
ghost use Rattle.std.specs.Io.KnownBytes as known;
ghost use Rattle.csv.specs.Reading.{default_config, has_failed, reader_config, reader_trim, Ready, source_of, strip_bom, reader_state, AreRecords};
ghost use Rattle.csv.specs.Records.{fields_of};
ghost use Rattle.csv.specs.declared.parser.State.TheVariants as st;
ghost use Rattle.csv.specs.declared.reader.Trim.TheVariants as trim;
ghost use Rattle.flow_log_cli.specs.Activities.{Maps, Spells};
ghost use Rattle.flow_log_cli.specs.Maps.{AreGoodRows, IsGoodRow, IsRefusedRow};
ghost use Rattle.flow_log_cli.specs.Noted.{AreMapped, IsMapOf, IsVocabulary};

use crate::first_numbers::FirstNumbers;
use crate::vocabulary::Vocabulary;
use csv::{ByteRecord, Reader, ReaderBuilder};
use std::alloc::{AllocError, Global};

/// Why a map is refused. Lines are counted from 1.
#[derive(Clone, Copy, PartialEq, Eq, Debug)]
pub enum MapRefusal {
    /// The line has not two fields.
    NoPair { line: u64 },
    /// The second field of the line is no event of the workflow.
    NoEvent { line: u64 },
    NoMemory,
}

impl From<AllocError> for MapRefusal {
    ghost use Rattle.std.specs.Prelude.{◌≡◌};
    ghost use Rattle.flow_log_cli.specs.declared.renaming.MapRefusal.TheVariants.{NoMemory};

    ghost from_gives = { λ _ refusal. refusal ≡ NoMemory };

    fn from(_error: AllocError) -> MapRefusal {
        MapRefusal::NoMemory
    }
}

/// The events that activities stand for, by the names that the log gives them.
#[derive(Drop)]
pub(crate) struct Renaming {
    table: FirstNumbers,
}

/// How many buckets there are for the names of a map.
const BUCKETS: usize = 4096;

impl Renaming {
    /// No activity stands for another event than its own name says.
    pub(crate) fn new(alloc: Global) -> Result<Renaming, AllocError>
        ensures names { IfOk result (λ renaming. renaming.table.names ≡ []) }
        ensures numbers { IfOk result (λ renaming. renaming.table.numbers.items ≡ []) }
    {
        Ok(Renaming {
            table: FirstNumbers::new(alloc, BUCKETS)?,
        })
    }

    /// The event that an activity stands for, if the map has it.
    pub(crate) fn event_of(&self, activity: &[u8]) -> Option<u32>
        ensures { (events : List (List ℕ)) (rows : List (List (List ℕ))) → AreMapped events rows self.now.table.names self.now.table.numbers.items →
            Maps events rows activity.now result }
    {
        self.table.get(activity)
    }

    /// Takes a row in. A first row whose second field is no event is a heading.
    fn take(
        &mut self,
        alloc: Global,
        record: &ByteRecord,
        vocabulary: &Vocabulary<'_>,
        line: u64,
        first: bool,
    ) -> Result<(), MapRefusal>
        requires { IsVocabulary vocabulary.now }
        ensures taken { OnOk result ((rows : List (List (List ℕ))) → AreMapped vocabulary.now.events.now rows self.old.table.names self.old.table.numbers.items →
            AreMapped vocabulary.now.events.now (rows ++ fields_of «record».now ∷ []) self.new.table.names self.new.table.numbers.items) }
        ensures good { OnOk result (IsGoodRow vocabulary.now.events.now first (fields_of «record».now)) }
        ensures refused { IfErr result (IsRefusedRow vocabulary.now.events.now first (fields_of «record».now)) }
    {
        let Some(activity) = record.get(0) else {
            return Err(MapRefusal::NoPair { line });
        };
        let Some(name) = record.get(1) else {
            return Err(MapRefusal::NoPair { line });
        };
        match vocabulary.event_spelled(alloc, name)? {
            Some(event) => Ok(self.table.note(activity, event)?),
            None if first => Ok(()),
            None => Err(MapRefusal::NoEvent { line }),
        }
    }
}

/// The line at which a record began.
fn line_of(record: &ByteRecord) -> u64 {
    match record.position() {
        Some(position) => position.line,
        None => 0,
    }
}

/// Takes all rows in that the reader gives.
fn take_rows(
    alloc: Global,
    reader: &mut Reader<&[u8]>,
    vocabulary: &Vocabulary<'_>,
    renaming: &mut Renaming,
) -> Result<(), MapRefusal>
    requires vocabulary { IsVocabulary vocabulary.now }
    requires names { renaming.old.table.names ≡ [] }
    requires numbers { renaming.old.table.numbers.items ≡ [] }
    requires config { reader_config reader.old ≡ default_config }
    requires trim { reader_trim reader.old ≡ trim.None }
    requires ready { Ready reader.old }
    requires begun { reader_state reader.old ≡ st.StartRecord }
    ensures { OnOk result ((text : List ℕ) → source_of (λ s. Some s.now) reader.old ≡ Some (strip_bom text) →
        IsMapOf vocabulary.now.events.now text renaming.new.table.names renaming.new.table.numbers.items) }
{
    let mut record = ByteRecord::new(alloc);
    for row in 0..u64::MAX {
        match reader.read_byte_record(&mut record) {
            Ok(true) => {}
            Ok(false) => return Ok(()),
            Err(_) => return Err(MapRefusal::NoMemory),
        }
        renaming.take(alloc, &record, vocabulary, line_of(&record), row == 0)?;
    }
    Err(MapRefusal::NoMemory)
}

/// Reads a map: a CSV with the name of an activity and the event that it stands for in each row.
pub(crate) fn read_map(
    alloc: Global,
    text: &[u8],
    vocabulary: &Vocabulary<'_>,
) -> Result<Renaming, MapRefusal>
    requires { IsVocabulary vocabulary.now }
    ensures { IfOk result (λ renaming. IsMapOf vocabulary.now.events.now text.now renaming.table.names renaming.table.numbers.items) }
{
    let mut renaming = Renaming::new(alloc)?;
    let mut reader = ReaderBuilder::new()
        .has_headers(false)
        .flexible(true)
        .from_reader(alloc, text);
    take_rows(alloc, &mut reader, vocabulary, &mut renaming)?;
    Ok(renaming)
}
