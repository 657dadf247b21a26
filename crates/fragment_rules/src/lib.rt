// The choices for the base (A) and for the records (B), and the table of their twenty-five pairs: the fragment rule of each.
#![tactic(auto)]

ghost use Rattle.std.specs.Prelude.{◌≡◌, [], get_or};
ghost use Rattle.fragment_rules.specs.Rules.{rule_of, place_of};
ghost use Rattle.fragment_rules.specs.Table.{entry, table};
ghost use Rattle.fragment_rules.specs.declared.Parting.TheVariants.{Bare};
ghost use Rattle.fragment_rules.specs.declared.Giving.TheVariants.{Nothing};

// What to report of the base (A), or of a record (B).
#[derive(Clone, Copy, Debug, PartialEq, Eq)]
pub enum Choice {
    None,
    Whole,
    WholeWide,
    Piece,
    Inverse,
}

// Where the base parts of the fragments come from.
#[derive(Clone, Copy, PartialEq, Eq)]
pub enum Parting {
    // One fragment, with no base part.
    Bare,
    // One fragment, with the base.
    Single,
    // One fragment a record, with the base and that record's pieces; one with the base where there is no record.
    EachRecord,
    // One fragment a record, with the base clipped to it.
    EachClip,
    // One fragment a gap.
    EachGap,
}

// What a record gives to the pieces.
#[derive(Clone, Copy, PartialEq, Eq)]
pub enum Giving {
    Nothing,
    Record,
    // The record clipped to the base.
    Clip,
    // What of the record lies before the base and after it.
    Outside,
}

// The fragment rule of a pair of choices: where the base parts come from, and what a record gives.
#[derive(Clone, Copy, PartialEq, Eq)]
pub struct Rule(pub Parting, pub Giving);

// The rule of each pair: a row for each choice for A, in it an entry for each choice for B, both in the order None, Whole, WholeWide, Piece, Inverse.
const RULES: [[Rule; 5]; 5] = [
    [
        Rule(Parting::Bare, Giving::Nothing),
        Rule(Parting::Bare, Giving::Record),
        Rule(Parting::Bare, Giving::Record),
        Rule(Parting::Bare, Giving::Clip),
        Rule(Parting::Bare, Giving::Outside),
    ],
    [
        Rule(Parting::EachRecord, Giving::Nothing),
        Rule(Parting::EachRecord, Giving::Record),
        Rule(Parting::EachRecord, Giving::Record),
        Rule(Parting::EachRecord, Giving::Clip),
        Rule(Parting::EachRecord, Giving::Outside),
    ],
    [
        Rule(Parting::Single, Giving::Nothing),
        Rule(Parting::Single, Giving::Record),
        Rule(Parting::Single, Giving::Record),
        Rule(Parting::Single, Giving::Clip),
        Rule(Parting::Single, Giving::Outside),
    ],
    [
        Rule(Parting::EachClip, Giving::Nothing),
        Rule(Parting::EachClip, Giving::Record),
        Rule(Parting::EachClip, Giving::Record),
        Rule(Parting::EachClip, Giving::Clip),
        Rule(Parting::EachClip, Giving::Outside),
    ],
    [
        Rule(Parting::EachGap, Giving::Nothing),
        Rule(Parting::EachGap, Giving::Record),
        Rule(Parting::EachGap, Giving::Record),
        Rule(Parting::EachGap, Giving::Clip),
        Rule(Parting::EachGap, Giving::Outside),
    ],
];

// The rule of a pair: the entry at its places, in the source's table and in the one that the computed test ran over.
#[tactic(auto, unfolding(crate::specs::Table::table))]
pub fn rule_of(a: Choice, b: Choice) -> Rule
    ensures rule { result ≡ rule_of a b }
    ensures listed { result ≡ get_or (get_or table (place_of a) []) (place_of b) (entry Bare Nothing) }
{
    RULES[a as usize][b as usize]
}
