ghost use Rattle.std.specs.Prelude.{◌≡◌};
ghost use Rattle.bench_trait.specs.Table.{is_row_of, row_result, IsSaid};
ghost use Rattle.bench_trait.specs.declared.table.TableResult.TheVariants as outcome;

use crate::artefacts::ArtefactBook;
use crate::ask::Ask;
use crate::bench::{Bench, BenchFault, MeasureError};
use evidence_types::Answer;

/// What a row of a `TableBench` says.
#[derive(Debug, Drop)]
pub enum TableResult {
    Answer(Answer),
    Fault(BenchFault),
    /// Want of memory.
    Starve,
}

/// A row of a `TableBench`: what it says of one event in sessions with one nonce.
#[derive(Debug, Drop)]
pub struct TableRow {
    pub nonce: [u8; 16],
    pub event: u32,
    pub outcome: TableResult,
}

/// A measurer that answers by the first row for the question's nonce and event. If there is no such
/// row, it fails as it would without an artefact. It looks at no artefacts.
#[derive(Debug, Drop)]
pub struct TableBench {
    rows: Vec<TableRow>,
}

impl TableBench {
    /// The bench with these rows.
    pub fn of(rows: Vec<TableRow>) -> TableBench
        ensures { result.rows.items ≡ rows.items }
    {
        TableBench { rows }
    }
}

impl Bench for TableBench {
    ghost gives = { λ bench artefacts ask bytes. row_result bench.rows.items ask ≡ outcome.Answer bytes };

    ghost fails = { λ bench artefacts ask fault. row_result bench.rows.items ask ≡ outcome.Fault fault };

    ghost starves = { λ bench artefacts ask. row_result bench.rows.items ask ≡ outcome.Starve };

    fn measure(&self, artefacts: &ArtefactBook, ask: &Ask) -> Result<Answer, MeasureError> {
        let _ = artefacts;
        for row in &self.rows {
            if is_row_of(row, ask) {
                return said(&row.outcome);
            }
        }
        Err(MeasureError::Fault(BenchFault::NoArtefact))
    }
}

fn is_row_of(row: &TableRow, ask: &Ask) -> bool
    ensures { result ≡ is_row_of ask.now row.now }
{
    row.nonce == ask.nonce && row.event == ask.event
}

fn said(outcome: &TableResult) -> Result<Answer, MeasureError>
    ensures { IsSaid result outcome.now }
{
    match outcome {
        TableResult::Answer(answer) => Ok(answer.copy()),
        TableResult::Fault(fault) => Err(MeasureError::Fault(*fault)),
        TableResult::Starve => Err(MeasureError::NoMemory),
    }
}
