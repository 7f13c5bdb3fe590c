ghost use Rattle.std.specs.Prelude.{◌≡◌, ◌≤◌, ◌^◌, ◌++◌, codes, decimal, flat_map, length, sum_by, zip, IfOk};
ghost use Rattle.cgl_model.specs.Valid.{IsSized};
ghost use Rattle.cgl_num.specs.Fraction.{fraction_text};
ghost use Rattle.cgl_text.specs.Growth.{Grows};
ghost use Rattle.cgl_app.specs.Report.{counts_text, cut_line, generator_word, key_text, report_text, wide_line};

use cgl_model::{Column, Model, Name};
use cgl_num::{Frac, Memory};
use cgl_pool::Kept;
use cgl_text::Builder;
use itoa::Buffer;
use std::alloc::Global;

fn append_number(text: &mut Builder, number: u64)
    ensures { Grows (decimal number) text.old text.new }
{
    let mut buffer = Buffer::new();
    text.append(buffer.format(number).as_bytes());
}

/// Appends a number behind its word.
fn append_counted(text: &mut Builder, word: &[u8], number: u64)
    ensures { Grows (word.now ++ decimal number) text.old text.new }
{
    text.append(word);
    append_number(text, number);
}

fn append_fraction(text: &mut Builder, fraction: Frac)
    ensures { Grows (fraction_text fraction) text.old text.new }
{
    let mut digits = [0; 80];
    let len = fraction.digits(&mut digits);
    text.append(&digits[..len]);
}

/// The word for a generator.
fn generator_word(generator: u32) -> &'static [u8]
    ensures { result.now ≡ generator_word generator }
{
    match generator {
        0 => b"round",
        1 => b"probe",
        2 => b"cover",
        3 => b"zerohalf",
        4 => b"gomory",
        5 => b"mir",
        6 => b"flow",
        7 => b"lift",
        8 => b"reduce",
        _ => b"",
    }
}

fn append_key(text: &mut Builder, key: (u32, u64))
    ensures { Grows (key_text key) text.old text.new }
{
    text.append(generator_word(key.0));
    append_counted(text, b" ", key.1);
    text.append(b"\n");
}

fn append_cut(text: &mut Builder, name: &Name, kept: &Kept)
    ensures { Grows (cut_line (name.now, kept.now)) text.old text.new }
{
    text.append(name.as_slice());
    text.append(b" ");
    append_fraction(text, kept.candidate.violation);
    text.append(b" ");
    append_key(text, kept.key);
}

fn append_cuts(text: &mut Builder, mut names: &[Name], mut cuts: &[Kept])
    ensures { Grows (flat_map cut_line (zip names.entry.now cuts.entry.now)) text.old text.new }
{
    'cuts: while let Some((kept, later)) = cuts.split_first() {
        let Some((name, others)) = names.split_first() else {
            return;
        };
        append_cut(text, name, kept);
        names = others;
        cuts = later;
    }
}

fn append_wides(text: &mut Builder, wides: &[(u32, u64)])
    ensures { Grows (flat_map wide_line wides.now) text.old text.new }
{
    for key in wides {
        text.append(b"wide ");
        append_key(text, *key);
    }
}

/// How many cuts and how many wide items there are.
fn append_head(text: &mut Builder, cuts: usize, wides: usize)
    ensures { Grows (codes "cuts " ++ decimal cuts ++ codes " wide " ++ decimal wides ++ codes "\n") text.old text.new }
{
    append_counted(text, b"cuts ", cuts as u64);
    append_counted(text, b" wide ", wides as u64);
    text.append(b"\n");
}

/// The report of the listed cuts, under the names of their rows, and of the wide items.
pub fn report_text(
    alloc: Global,
    names: &[Name],
    cuts: &[Kept],
    wides: &[(u32, u64)],
) -> Result<Vec<u8>, Memory>
    ensures { IfOk result (λ text. text.items ≡ report_text names.now cuts.now wides.now) }
{
    let mut text = Builder::new(alloc);
    append_head(&mut text, cuts.len(), wides.len());
    append_cuts(&mut text, names, cuts);
    append_wides(&mut text, wides);
    text.finish()
}

/// How many entries the columns have.
fn entries(columns: &[Column]) -> u64
    requires { sum_by (λ c. length c.entries) columns.now ≤ 2 ^ 22 }
    ensures { result ≡ sum_by (λ c. length c.entries) columns.now }
{
    let mut count = 0;
    let mut rest = columns;
    while let [column, later @ ..] = rest {
        count += column.entries.as_slice().len() as u64;
        rest = later;
    }
    count
}

fn append_counts(text: &mut Builder, rows: usize, cols: usize, entries: u64)
    ensures { Grows (codes "rows " ++ decimal rows ++ codes " cols " ++ decimal cols ++ codes " entries " ++ decimal entries ++ codes "\n") text.old text.new }
{
    append_counted(text, b"rows ", rows as u64);
    append_counted(text, b" cols ", cols as u64);
    append_counted(text, b" entries ", entries);
    text.append(b"\n");
}

/// How many rows, columns and entries the model has.
pub fn counts_text(alloc: Global, model: &Model) -> Result<Vec<u8>, Memory>
    requires { IsSized model.now }
    ensures { IfOk result (λ text. text.items ≡ counts_text model.now) }
{
    let mut text = Builder::new(alloc);
    let cols = model.cols.as_slice();
    append_counts(
        &mut text,
        model.rows.as_slice().len(),
        cols.len(),
        entries(cols),
    );
    text.finish()
}
