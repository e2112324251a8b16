// Prints the row check's answer for every kind 0 to 17 with each column at its limits, and for the counts and
// the length at theirs. The file stdout beside src/ was written by expected.py, which knows nothing of this
// code.
#![tactic(auto)]

use day_rows::check::{Counts, Takes, check_rows};
use day_rows::kind::Kind;
use day_rows::op::Op;
use day_rows::refusal::Refusal;
use day_rows::row::Row;
use std::io;

// The numbers that the columns left and right are set to: around each count's limit, and the ends of 16 bits.
const NUMBERS: [u16; 13] = [0, 1, 23, 24, 25, 63, 64, 65, 199, 200, 201, 65534, 65535];

// The numbers that the column extra is set to: around 0, the ops and the offsets, kept 32,768 higher.
const EXTRAS: [u16; 13] = [
    0, 1, 32764, 32765, 32766, 32767, 32768, 32769, 32770, 32771, 32772, 65534, 65535,
];

// The columns of a row beside its kind.
#[derive(Clone, Copy, PartialEq, Eq)]
enum Column {
    Left,
    Right,
    Extra,
}

// All the columns.
const COLUMNS: [Column; 3] = [Column::Left, Column::Right, Column::Extra];

// All the ways in which a call takes rows.
const TAKES: [Takes; 3] = [Takes::Given, Takes::Scheduling, Takes::Assignment];

// Prints an extra column as the signed number that it stands for.
fn signed(rt: &impl Print, extra: u16) -> io::Result<()> {
    if extra < Row::NO_EXTRA {
        rt.write_all(b"-")?;
        rt.print(Row::NO_EXTRA - extra)
    } else {
        rt.print(extra - Row::NO_EXTRA)
    }
}

// Prints which rows a call takes.
fn takes_text(rt: &impl Print, takes: Takes) -> io::Result<()> {
    match takes {
        Takes::Given => rt.write_all(b"all"),
        Takes::Scheduling => rt.write_all(b"scheduling"),
        Takes::Assignment => rt.write_all(b"assignment"),
    }
}

// Prints an answer: `=good`, or `=` with the number and, for 5, the row.
fn answer_text(rt: &impl Print, answer: Result<(), Refusal>) -> io::Result<()> {
    match answer {
        Ok(()) => rt.write_all(b"=good"),
        Err(why) => {
            rt.write_all(b"=")?;
            rt.print(u8::from(why))?;
            row_text(rt, why)
        }
    }
}

// Prints the row that 5 carries.
fn row_text(rt: &impl Print, why: Refusal) -> io::Result<()> {
    if let Refusal::Row(row) = why {
        print!(rt; " row {row}")?;
    }
    Ok(())
}

// A row that each call takes.
fn good_row(takes: Takes) -> u64 {
    let kind = if takes == Takes::Assignment {
        Kind::CHOICES_HAVE_SAME_CHOOSERS
    } else {
        Kind::CHOICE_IS_IN_SLOT
    };
    u64::from(plain_row(kind))
}

// A row of a kind with zeros in its columns.
fn plain_row(kind: u16) -> Row {
    let extra = if kind == Kind::SLOT_HAS_LIMITED_SIZE {
        Op::EQ
    } else {
        Row::NO_EXTRA
    };
    Row {
        kind,
        left: 0,
        right: 0,
        extra,
    }
}

// The row of a kind with one column set and the others as the kind allows.
fn probe(kind: u16, column: Column, value: u16) -> u64 {
    let row = plain_row(kind);
    u64::from(match column {
        Column::Left => Row { left: value, ..row },
        Column::Right => Row {
            right: value,
            ..row
        },
        Column::Extra => Row {
            extra: value,
            ..row
        },
    })
}

// Prints a column's name.
fn column_text(rt: &impl Print, column: Column) -> io::Result<()> {
    match column {
        Column::Left => rt.write_all(b" left"),
        Column::Right => rt.write_all(b" right"),
        Column::Extra => rt.write_all(b" extra"),
    }
}

// The values that a column is set to.
fn values_of(column: Column) -> [u16; 13] {
    if column == Column::Extra {
        EXTRAS
    } else {
        NUMBERS
    }
}

// Prints the value that a column is set to.
fn value_text(rt: &impl Print, column: Column, value: u16) -> io::Result<()> {
    rt.write_all(b" ")?;
    if column == Column::Extra {
        signed(rt, value)
    } else {
        rt.print(value)
    }
}

// Prints the answer for one value of one column, in the second row of two.
fn answer_at(
    rt: &impl Print,
    takes: Takes,
    kind: u16,
    column: Column,
    value: u16,
) -> io::Result<()> {
    let rows = [good_row(takes), probe(kind, column, value)];
    answer_text(rt, check_rows(counts_of(64, 24, 200, 2), takes, &rows))
}

// Prints a line: one column of one kind at all its values.
fn line(rt: &impl Print, takes: Takes, kind: u16, column: Column) -> io::Result<()> {
    takes_text(rt, takes)?;
    print!(rt; " kind {kind}")?;
    column_text(rt, column)?;
    let values = values_of(column);
    for value in &values {
        value_text(rt, column, *value)?;
        answer_at(rt, takes, kind, column, *value)?;
    }
    rt.write_all(b"\n")
}

// Prints a line for counts and a length: how many of the good rows are lent is a number of its own.
fn counted(
    rt: &impl Print,
    takes: Takes,
    counts: Counts,
    lent: usize,
    rows: &[u64],
) -> io::Result<()> {
    if rows.len() < lent {
        return Ok(());
    }
    let part = &rows[..lent];
    counts_text(rt, takes, counts)?;
    print!(rt; " lent {lent} ")?;
    answer_text(rt, check_rows(counts, takes, part))?;
    rt.write_all(b"\n")
}

// Prints the counts of a line.
fn counts_text(rt: &impl Print, takes: Takes, counts: Counts) -> io::Result<()> {
    let Counts {
        choices,
        slots,
        choosers,
        rows,
    } = counts;
    takes_text(rt, takes)?;
    print!(rt; " choices {choices} slots {slots} choosers {choosers} rows {rows}")
}

// Counts by their four numbers.
fn counts_of(choices: usize, slots: usize, choosers: usize, rows: usize) -> Counts {
    Counts {
        choices,
        slots,
        choosers,
        rows,
    }
}

// Prints the lines of each count at its limit and one over.
fn counts_at_limits(rt: &impl Print, takes: Takes, rows: &[u64]) -> io::Result<()> {
    counted(rt, takes, counts_of(64, 24, 200, 2), 2, rows)?;
    counted(rt, takes, counts_of(65, 24, 200, 2), 2, rows)?;
    counted(rt, takes, counts_of(64, 25, 200, 2), 2, rows)?;
    counted(rt, takes, counts_of(64, 24, 201, 2), 2, rows)
}

// Prints the lines of the rows at their limit and one over.
fn rows_at_limit(rt: &impl Print, takes: Takes, most: usize, rows: &[u64]) -> io::Result<()> {
    counted(rt, takes, counts_of(64, 24, 200, most), most, rows)?;
    if most < 1025 {
        counted(rt, takes, counts_of(64, 24, 200, most + 1), most + 1, rows)?;
    }
    Ok(())
}

// Prints the lines of a length that isn't the count's: 1 before 2, and 2 before 5.
fn lengths_apart(rt: &impl Print, takes: Takes, rows: &[u64]) -> io::Result<()> {
    counted(rt, takes, counts_of(64, 24, 200, 2), 1, rows)?;
    counted(rt, takes, counts_of(64, 24, 200, 2), 3, rows)?;
    counted(rt, takes, counts_of(65, 24, 200, 2), 3, rows)?;
    counted(rt, takes, counts_of(0, 0, 0, 2), 3, rows)?;
    counted(rt, takes, counts_of(0, 0, 0, 2), 2, rows)?;
    counted(rt, takes, counts_of(0, 0, 0, 0), 0, rows)
}

// Prints the lines of counts and lengths for the rows that a call takes.
fn limits(rt: &impl Print, takes: Takes, most: usize) -> io::Result<()> {
    let rows = [good_row(takes); 1025];
    counts_at_limits(rt, takes, &rows)?;
    rows_at_limit(rt, takes, most, &rows)?;
    lengths_apart(rt, takes, &rows)
}

fn main(rt: HostRuntime) -> io::Result<()> {
    for takes in &TAKES {
        for kind in 0..18u16 {
            for column in &COLUMNS {
                line(&rt, *takes, kind, *column)?;
            }
        }
    }
    limits(&rt, Takes::Given, 128)?;
    limits(&rt, Takes::Scheduling, 1024)?;
    limits(&rt, Takes::Assignment, 1024)
}
