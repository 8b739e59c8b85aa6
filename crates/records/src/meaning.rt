// The documents' words for each refusal.
use crate::Refusal;
use std::error::Error;
use std::fmt;

// What a refusal means, in a line.
impl fmt::Display for Refusal {
    fn fmt<W: fmt::Write>(&self, f: &mut fmt::Formatter<W>) -> fmt::Result {
        f.write_str(match self {
            Refusal::CutFile => "cut file: a length is over its limit or no multiple of 8",
            Refusal::StrayRecord =>
                "stray record: the kind or the file's end stands against the table, byte 1 or an unnamed field is not zero, S, R, C or L is out of sequence, a weighting is missing or one too many, P, W or M does not rise, or a component without a weighting has more than one pair",
            Refusal::OutOfRange =>
                "out of range: a count (a 65th symbol or rule too), arity, symbol, variable, weighting count or weight place is outside its range, or M names a constructor",
            Refusal::BrokenSide => "broken side: a side's nodes are not exactly one term",
            Refusal::BareLeft => "bare left: a left side is a variable",
            Refusal::LooseVariable => "loose variable: a variable of the right is not on the left",
            Refusal::NoSuchPair => "no such pair: a P names no pair of the pack",
            Refusal::PairCount => "pair count: a pair stands not at all or twice",
            Refusal::BackArc => "back arc: an arc leads to a lower component",
            Refusal::SelfArc => "self arc: a pair without weights has an arc to itself",
            Refusal::Heavy => "heavy: a form of a rule or of a pair still present passes the limit",
            Refusal::RuleRises => "rule rises: a rule's left is not at least its right",
            Refusal::PairStays =>
                "pair stays: a pair rises under a weighting, or remains after the last",
            Refusal::ShortList =>
                "short list: the lent list cannot hold all pairs, or the lent buffer the pack of a text",
            Refusal::BadText => "bad text: a text is outside the grammar or too long",
            Refusal::TextLimits =>
                "text limits: a name has two arities, or a count of the text is over its limit",
            Refusal::NoneLeaves => "none leaves: no pair leaves under a weighting",
            Refusal::LostArgument =>
                "lost argument: an argument weight is 0 where each is to be at least 1",
            Refusal::RuleStays => "rule stays: a rule's left is not greater than its right",
            Refusal::Full => "full: the next term passes 512 nodes or the buffer",
            Refusal::WrongContinuation =>
                "wrong continuation: the symbols do not begin with the old ones, or the run did not end spent",
            Refusal::EndsDiffer =>
                "ends differ: the two sides of a critical pair finish at different terms",
            Refusal::SideSpent =>
                "side spent: a side of a critical pair spends its allowance of steps",
            Refusal::NoSuchRule => "no such rule: the pack has no rule of this number",
        })
    }
}

impl Error for Refusal {}
