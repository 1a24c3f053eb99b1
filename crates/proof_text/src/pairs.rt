//! Takes the lines of the rules.
ghost use Rattle.std.specs.Prelude.{◌≡◌, ◌+◌, ◌++◌, ◌<◌, ◌^◌, ◌∷◌, [], ℕ, suc, List, Ok, IfOk, MatchResult};
ghost use Rattle.std.specs.Option.{option_copied};
ghost use Rattle.io_ports.specs.Cause.{HasCause};
ghost use Rattle.variant_ini.specs.declared.key_line.KeyLine.{KeyLine as KeyPair};
ghost use Rattle.variant_ini.specs.LineKind.{line_kind};
ghost use Rattle.variant_ini.specs.LineView.{pair_view};
ghost use Rattle.variant_ini.specs.Section.{key_line};
ghost use Rattle.proof_text.specs.Pairs as Pairs;
ghost use Rattle.proof_text.specs.Reading.{pairs_on, rules_of, with_rules};
ghost use Rattle.proof_text.specs.TakingView.{HasWhy, IsUnread, Reads, text_said};

use crate::fault::ProofFault;
use crate::source_lines::{NoProof, take_text, text_if};
use foundation::Text;
use io_ports::{LineBuf, Source};
use std::alloc::{AllocError, Global};
use variant_ini::{KeyLine, LONGEST_LINE, Line, Pair, pair_of, read_line};

/// The pair as a line without blanks at the ends and beside the `=`.
fn compact(alloc: Global, pair: &Pair<'_>) -> Result<Text, AllocError>
    ensures { IfOk result (λ line. line ≡ Pairs.compact (pair_view pair.now)) }
{
    let mut items = pair.key.to_vec(alloc)?;
    items.push(b'=')?;
    items.extend_from_slice(pair.value)?;
    Ok(Text { items })
}

/// Whether a line of a variants file says this pair.
fn says(line: &[u8], pair: &Pair<'_>) -> bool
    ensures { result ≡ Pairs.is_pair (pair_view pair.now) (line_kind line.now) }
{
    match read_line(line) {
        Line::Pair(said) => said.key == pair.key && said.value == pair.value,
        _ => false,
    }
}

/// Whether the compact line of the pair is not too long, and says it.
#[tactic(auto, unfolding(crate::specs::Pairs::is_read_back))]
fn is_read_back(alloc: Global, pair: &Pair<'_>) -> Result<bool, AllocError>
    ensures { IfOk result (λ is. is ≡ Pairs.is_read_back (pair_view pair.now)) }
{
    let line = compact(alloc, pair)?;
    let line = line.items.as_slice();
    Ok(line.len() <= LONGEST_LINE && says(line, pair))
}

fn key_line_of(alloc: Global, pair: &Pair<'_>) -> Result<KeyLine, AllocError>
    ensures { IfOk result (λ line. line ≡ key_line pair.now.key.now pair.now.value.now) }
{
    let key = pair.key.to_vec(alloc)?;
    let value = pair.value.to_vec(alloc)?;
    Ok(KeyLine {
        key: Text { items: key },
        value: Text { items: value },
    })
}

/// The pair that a line says.
#[tactic(auto, unfolding(crate::specs::Pairs::pair_said))]
fn read_pair(alloc: Global, text: &[u8]) -> Result<Option<KeyLine>, AllocError>
    ensures { IfOk result (λ pair. pair ≡ Pairs.pair_said text.now) }
{
    let Some(pair) = pair_of(text) else {
        return Ok(None);
    };
    if !is_read_back(alloc, &pair)? {
        return Ok(None);
    }
    Ok(Some(key_line_of(alloc, &pair)?))
}

// The pair that a text says; the line of this number has no text where it is missing or too long.
fn pair_in(alloc: Global, number: u64, text: Option<&[u8]>) -> Result<KeyLine, NoProof>
    ensures says { let said = text_said (ProofFault.BadRules number) Pairs.pair_said (option_copied text.entry) in
        MatchResult result (λ pair. said ≡ Ok pair) (HasWhy said) }
    ensures heard { ¬ (IsUnread result) }
{
    let Some(text) = text else {
        return Err(NoProof::Faulty(ProofFault::BadRules(number)));
    };
    match read_pair(alloc, text)? {
        Some(pair) => Ok(pair),
        None => Err(NoProof::Faulty(ProofFault::BadRules(number))),
    }
}

// Takes the pair of the line of this number.
fn take_pair<S: Source>(
    alloc: Global,
    source: &mut S,
    line: &mut LineBuf,
    number: u64,
) -> Result<KeyLine, NoProof>
    ensures reads { (count : ℕ) (pairs : List KeyPair) → Reads (S.left source.old) (S.left source.new)
        (pairs_on (suc count) number pairs) (λ pair. pairs_on count (number + 1) (pairs ++ pair ∷ [])) result }
    ensures cause { HasCause (S.faults source.old) (S.faults source.new) (IsUnread result) }
{
    let is_there = take_text(source, line)?;
    pair_in(alloc, number, text_if(is_there, line))
}

/// Takes the pairs of this many lines from the line of this number on.
pub(crate) fn take_pairs<S: Source>(
    alloc: Global,
    source: &mut S,
    line: &mut LineBuf,
    number: u64,
    count: u16,
) -> Result<Vec<KeyLine>, NoProof>
    requires { number < 2 ^ 32 }
    ensures reads { Reads (S.left source.old) (S.left source.new)
        (pairs_on count number []) (λ pairs. with_rules (number + count) (rules_of pairs.items)) result }
    ensures cause { HasCause (S.faults source.old) (S.faults source.new) (IsUnread result) }
{
    let mut pairs = Vec::new(alloc);
    for done in 0..count {
        let pair = take_pair(alloc, source, line, number + done as u64)?;
        pairs.push(pair)?;
    }
    Ok(pairs)
}
