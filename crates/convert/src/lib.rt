// Old run files to wide ones and back: from files of one width to files of the other. A file is judged as its
// reader judges it, and its result measured, so that a refusal writes nothing; then each record is written as
// the other width has it, and the entries, which are the same at both, are copied. Nothing that the run
// judges is judged here.
#![tactic(auto)]

ghost use Rattle.std.specs.Prelude.{◌≡◌, true, false, not, ◌≤◌, ◌%◌, ◌/◌, length};
ghost use Rattle.std.specs.Option.{option_or};
ghost use Rattle.io.specs.Counts.{IsPrefixLen};
ghost use Rattle.semantics.specs.Run.{over};
ghost use Rattle.semantics.specs.Convert.{is_unfit, is_unfit_in, conversion_refusal, conversion, conversion_text, Faithful};
ghost use Rattle.semantics.specs.RunFile.{layout_of, file_refusal};
ghost use Rattle.semantics.specs.Listing.{refusal_text};
ghost use Rattle.listing.specs.Writing.{written as text_written};
ghost use Rattle.convert.specs.declared.Reason.TheVariants.{Reader};
ghost use Rattle.convert.specs.Rewritten.{total_of, unfit_place, size_in, rewritten, result_of};
ghost use Rattle.convert.specs.Reasons.{number_of, place_of, written, Limits, Measured};

use listing::put_refusal;
use runfile::record::{Fault, Record, read_record, record_at};
use runfile::start;
use semantics::{MOST_BYTES, Total, Written};
use word::Word;
use word::bytes::copy;

// Why a file is not converted: its reader turns it away; the record at an offset has a total that the other
// width has not; the result is too long for a file; the slice is too short for the result.
// Number and place are its own, and of no trait: no function is generic over the enums of reasons.
#[derive(Clone, Copy)]
enum Reason {
    Reader(Fault),
    Unfit(usize),
    TooLong,
    TooShort,
}

impl Reason {
    fn number(self) -> u32
        ensures { result ≡ number_of self }
    {
        match self {
            Reason::Reader(fault) => fault.number(),
            Reason::Unfit(_) => 13,
            Reason::TooLong => 22,
            Reason::TooShort => 3,
        }
    }

    fn place(self) -> usize
        ensures { result ≡ place_of self }
    {
        match self {
            Reason::Reader(fault) => fault.place(),
            Reason::Unfit(at) => at,
            Reason::TooLong | Reason::TooShort => 0,
        }
    }
}

impl From<Fault> for Reason {
    ghost from_gives = { λ f r. r ≡ Reader f };

    fn from(fault: Fault) -> Reason {
        Reason::Reader(fault)
    }
}

// 13: a total of a wide file that no narrow file has. (It asks the width itself, here and in put_total: what a file
// holds is no matter of the trait of words, so a method there would be no plainer.)
#[tactic(auto, unfolding(semantics::specs::Convert::is_unfit))]
fn is_unfit<From: Word>(total: Total) -> bool
    ensures { result ≡ is_unfit From.flagged total }
{
    if !From::is_flagged() {
        return false;
    }
    if total.saturated {
        total.amount != 65535
    } else {
        65535 <= total.amount
    }
}

#[tactic(auto, unfolding(semantics::specs::Convert::is_unfit_in))]
fn holds_unfit<From: Word>(found: Record<'_>) -> bool
    ensures { result ≡ is_unfit_in From.flagged (total_of found.entry) }
{
    match found {
        Record::Cell { total, .. } => is_unfit::<From>(total),
        Record::Operation { amount, .. } => is_unfit::<From>(amount),
        Record::Table(_) | Record::Schedule(_) => false,
    }
}

// The place of the first record that is unfit, after one more.
fn first_unfit<From: Word>(unfit: Option<usize>, found: Record<'_>, at: usize) -> Option<usize>
    ensures { result ≡ option_or unfit (unfit_place From.flagged found.entry at) }
{
    if holds_unfit::<From>(found) {
        unfit.or(Some(at))
    } else {
        unfit
    }
}

// How many bytes a record has.
// The reader asks for each size where it knows the record, and this at the other width too.
fn size<W: Word>(found: Record<'_>) -> usize
    ensures { result ≡ size_in W.flagged found.entry }
{
    match found {
        Record::Table(_) => 3,
        Record::Cell { .. } => W::total_bytes() + 6,
        Record::Operation { .. } => W::total_bytes() + 5,
        Record::Schedule(entries) => entries.len() + 3,
    }
}

// 13 at the first record that is unfit, 22 for a result that is too long for a file, or its length.
fn limited(unfit: Option<usize>, length: usize) -> Result<usize, Reason>
    ensures { Limits unfit length result }
{
    if let Some(at) = unfit {
        return Err(Reason::Unfit(at));
    }
    if length > MOST_BYTES {
        return Err(Reason::TooLong);
    }
    Ok(length)
}

// How long the result is. All refusals but that of the slice are found in one walk over the records: the
// reader's come first, so an unfit record is kept in mind to the end. (A loop: where a record begins is known when the
// one before it has been read. An iterator would carry position and refusal, and is no plainer.)
// That the widths differ is asked in three places: a type for a pair of them would have two impls that say no more.
fn measure<From: Word, To: Word>(file: &[u8]) -> Result<usize, Reason>
    requires { To.flagged ≡ not From.flagged }
    ensures { Measured From.flagged file.now result }
{
    if file.len() > MOST_BYTES {
        return Err(Reason::Reader(Fault::TooLong));
    }
    let mut position = start();
    let mut unfit = None;
    let mut length = 0;
    loop {
        let (found, next) = read_record::<From>(file, position)?;
        unfit = first_unfit::<From>(unfit, found, position.at);
        length += size::<To>(found);
        if file.len() <= next.at {
            return limited(unfit, length);
        }
        position = next;
    }
}

// The bytes of a total, over the front of a slice. (That there is room is asked of the caller, by this function, put_record
// and rewrite, each for its own length: convert has measured the whole.)
#[tactic(auto, unfolding(semantics::specs::Run::over))]
fn put_total<W: Word>(total: Total, out: &mut [u8])
    requires { (layout_of W.flagged).total_size ≤ length out.old }
    ensures { out.new ≡ over ((layout_of W.flagged).total_bytes total) out.old }
{
    let [first, second, third, last] = total.amount.to_be_bytes();
    if W::is_flagged() {
        out[..5].copy_from_slice(&[total.saturated as u8, first, second, third, last]);
    } else {
        out[..2].copy_from_slice(&[third, last]);
    }
}

// A record as a width has it, over the front of a slice. Entries are not written here. (Its mark is copied with the
// numbers after it: copied apart, a cell takes 14 instructions more to widen, and 16 to narrow.)
#[tactic(auto, unfolding(semantics::specs::Text::text, semantics::specs::Run::over))]
fn put_record<W: Word>(found: Record<'_>, out: &mut [u8])
    requires { size_in W.flagged found ≤ length out.old }
    ensures { out.new ≡ over (rewritten W.flagged found.entry) out.old }
{
    match found {
        Record::Table(k) => {
            let [first, second] = W::table_mark();
            out[..3].copy_from_slice(&[first, second, k]);
        }
        Record::Cell { at, key, total } => {
            let [at_high, at_low] = at.to_be_bytes();
            let [key_high, key_low] = key.to_be_bytes();
            let [c, l] = *b"CL";
            out[..6].copy_from_slice(&[c, l, at_high, at_low, key_high, key_low]);
            put_total::<W>(total, &mut out[6..]);
        }
        Record::Operation { kind, key, amount } => {
            let [key_high, key_low] = key.to_be_bytes();
            let [o, p] = *b"OP";
            out[..5].copy_from_slice(&[o, p, kind, key_high, key_low]);
            put_total::<W>(amount, &mut out[5..]);
        }
        Record::Schedule(_) => {}
    }
}

// The result. Entries come last and are the same at both widths: they are copied at once. (A loop from record to
// record, as in measure.)
fn rewrite<From: Word, To: Word>(file: &[u8], out: &mut [u8])
    requires sound { (file_refusal (layout_of From.flagged) file.now).number ≡ 0 }
    requires room { length (result_of From.flagged To.flagged file.now) ≤ length out.old }
    ensures { out.new ≡ over (result_of From.flagged To.flagged file.now) out.old }
{
    let mut rest = file;
    let mut done = 0;
    while let Some(found) = record_at::<From>(rest, 0) {
        if let Record::Schedule(_) = found {
            copy(&mut out[done..done + rest.len()], rest);
            return;
        }
        put_record::<To>(found, &mut out[done..]);
        done += size::<To>(found);
        rest = &rest[size::<From>(found)..];
    }
}

// From one width to the other: whole, over the front of the slice, or not at all.
#[tactic(auto, using(crate::proofs::Answers::short_told))]
fn convert<From: Word, To: Word>(file: &[u8], out: &mut [u8]) -> Result<usize, Reason>
    requires { To.flagged ≡ not From.flagged }
    ensures { conversion From.flagged file.now out.old ≡ record { written = written result; out = out.new } }
{
    let length = measure::<From, To>(file)?;
    if out.len() < length {
        return Err(Reason::TooShort);
    }
    rewrite::<From, To>(file, out);
    Ok(length)
}

// What a call from C is told: a fixed struct of numbers.
// No From: neither type is of this crate.
fn told(answer: Result<usize, Reason>) -> Written
    ensures { result ≡ written answer }
{
    match answer {
        Ok(length) => Written {
            number: 0,
            place: 0,
            length,
        },
        Err(reason) => Written {
            number: reason.number(),
            place: reason.place(),
            length: 0,
        },
    }
}

// The wide file of a narrow one: whole, over the front of the slice, or not at all. (This and narrow are two functions,
// for the two names of C, with convert behind both.)
#[tactic(auto, using(crate::proofs::Answers::faithful_told))]
pub fn widen(file: &[u8], out: &mut [u8]) -> Written
    ensures result { conversion false file.now out.old ≡ record { written = result; out = out.new } }
    ensures faithful { (conversion_refusal false file.now).number ≡ 0 → Faithful false file.now }
{
    told(convert::<u32, u64>(file, out))
}

// The narrow file of a wide one. Its result is never too long for a file.
#[tactic(auto, using(crate::proofs::Answers::faithful_told))]
pub fn narrow(file: &[u8], out: &mut [u8]) -> Written
    ensures result { conversion true file.now out.old ≡ record { written = result; out = out.new } }
    ensures faithful { (conversion_refusal true file.now).number ≡ 0 → Faithful true file.now }
    ensures never { result.number ≡ 22 → ⊥ }
{
    told(convert::<u64, u32>(file, out))
}

// The line of a refusal.
fn put_reason(reason: Reason, out: &mut [u8]) -> usize
    ensures { text_written (record { at = 0; out = out.old }) (refusal_text (number_of reason) (place_of reason)) ≡ record { at = result; out = out.new } }
{
    put_refusal(out, 0, reason.number(), reason.place())
}

// The text for a program: the result, or the line of the refusal.
fn put_text<From: Word, To: Word>(file: &[u8], out: &mut [u8]) -> usize
    requires other { To.flagged ≡ not From.flagged }
    requires room { length out.old ≡ 65535 }
    ensures { (result ≡ length (conversion_text From.flagged file.now)) × (out.new ≡ over (conversion_text From.flagged file.now) out.old) }
{
    match convert::<From, To>(file, out) {
        Ok(length) => length,
        Err(reason) => put_reason(reason, out),
    }
}

// What a program that converts its input writes: the result, or the line of the refusal. A slice of 65,535
// bytes has room for either. (One promise for both directions, told apart by a flag: each program gives its own.)
#[tactic(auto, using(crate::proofs::Answers::text_told))]
pub fn convert_text(file: &[u8], flagged: bool, out: &mut [u8; 65535]) -> usize
    ensures result { (result ≡ length (conversion_text flagged file.now)) × (out.new ≡ over (conversion_text flagged file.now) out.old) }
    ensures counted { IsPrefixLen result out.new }
{
    if flagged {
        put_text::<u64, u32>(file, out)
    } else {
        put_text::<u32, u64>(file, out)
    }
}
