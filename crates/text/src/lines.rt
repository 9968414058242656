// The lines that the pair program writes.
// Kept: a list and a place in it as two parameters. The writers of `numerals` give the place back; a cursor over the list would hold a `&mut` and need ghost
// names at each call, and is no plainer.
ghost use Rattle.std.specs.Prelude.{◌≡◌, List, ◌++◌, ℕ, ◌+◌, ◌<◌, ◌≤◌, length};
ghost use Rattle.integers.specs.Within.{Within};
ghost use Rattle.graphs.specs.Graph.{Graph};
ghost use Rattle.graphs.specs.Limits.{EventGraph};
ghost use Rattle.numerals.specs.Appending.{Appended};
ghost use Rattle.refusals.specs.Numbers.{number_of, place_of};
ghost use Rattle.text.specs.Output.{RefusedLine, Lines, pairs, pairs_from, pair_header, ending, output_places};
ghost use Rattle.table.specs.Table.{RowsFilled};
ghost use Rattle.text.specs.Parts.TableLines.{LineOf, TableLines, SmallEntries};

use crate::ENTRIES;
use numerals::{put_byte, put_bytes, put_integer, put_natural};
use refusals::Refusal;

// The comma.
const COMMA: u8 = b',';

// The places of a row of the table.
const ROW: usize = 64;

// The line of a refusal.
pub(crate) fn put_refusal(out: &mut [u8], refusal: Refusal) -> usize
    requires { (output_places ≤ length out.old) × (number_of refusal < 100) × (place_of refusal < 100000) }
    ensures { (bs : List ℕ) × RefusedLine (number_of refusal) (place_of refusal) bs × Appended out.old 0 bs out.new result }
{
    let word = put_bytes(out, 0, b"refused,");
    let number = put_natural(out, word, refusal.number());
    let comma = put_byte(out, number, COMMA);
    let last = put_natural(out, comma, refusal.place());
    put_bytes(out, last, b"\r\n")
}

// The line of a pair, in at most 31 places.
fn put_pair(out: &mut [u8], at: usize, from: usize, to: usize, least: i64, most: i64) -> usize
    requires { (from < 100) × (to < 100) × Within 2046000000 least × Within 2046000000 most × (at + 31 ≤ length out.old) }
    ensures { (bs : List ℕ) × LineOf from to least most bs × (length bs ≤ 31) × Appended out.old at bs out.new result }
{
    let first = put_natural(out, at, from);
    let comma = put_byte(out, first, COMMA);
    let second = put_natural(out, comma, to);
    let comma = put_byte(out, second, COMMA);
    let third = put_integer(out, comma, least);
    let comma = put_byte(out, third, COMMA);
    let last = put_integer(out, comma, most);
    put_bytes(out, last, b"\r\n")
}

// The lines of the pairs with this `from`: in at most 31 places each, 64 of them.
#[tactic(auto, using(crate::proofs::WrittenLines::row_start, crate::proofs::WrittenLines::row_next))]
fn put_pairs_from(out: &mut [u8], at: usize, n: usize, from: usize, table: &[i64; ENTRIES]) -> usize
    requires { (n ≤ 64) × (from < n) × (at + 1984 ≤ length out.old) × SmallEntries n table.now }
    ensures { (result ≤ at + 1984) × ((bs : List ℕ) × TableLines n table.now (pairs_from n from) bs × Appended out.old at bs out.new result) }
{
    let mut next = at;
    for to in from + 1..n {
        let least = -table[to * ROW + from];
        let most = table[from * ROW + to];
        next = put_pair(out, next, from, to, least, most);
    }
    next
}

// The header and the line of every pair.
#[tactic(auto, using(crate::proofs::WrittenLines::table_start, crate::proofs::WrittenLines::table_next, crate::proofs::PairOrder::small_entries))]
pub(crate) fn put_pairs(out: &mut [u8], n: usize, table: &[i64; ENTRIES]) -> usize
    requires in_bounds { (output_places ≤ length out.old) × (n ≤ 64) }
    requires graph { (g : Graph) × (g.events ≡ n) × EventGraph 1000000 g × RowsFilled g n table.now }
    ensures { (g : Graph) → g.events ≡ n → EventGraph 1000000 g → RowsFilled g n table.now → (bs : List ℕ) × Lines g (pairs n) bs × Appended out.old 0 (pair_header ++ (ending ++ bs)) out.new result }
{
    let mut at = put_bytes(out, 0, b"from,to,least,most\r\n");
    for from in 0..n {
        at = put_pairs_from(out, at, n, from, table);
    }
    at
}
