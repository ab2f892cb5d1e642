//! A sum of costs that is to stay within its room.
use opl_list::Seq;
use opl_reify::Part;

/// A comparison of linear sides, and what is paid where it doesn't hold.
#[derive(Drop)]
pub struct Literal {
    pub part: Part,
    pub weight: u128,
}

/// What is paid anyway and for literals, which is to be at most `room`.
#[derive(Drop)]
pub struct Costs {
    pub literals: Seq<Literal>,
    pub paid: u128,
    pub room: u128,
}

/// How a literal hangs together with others.
#[derive(Drop, Clone, Copy)]
pub struct Tie {
    /// No variable of the literal can change more of what is paid.
    pub reach: u128,
    /// Whether no other literal has a variable of it.
    pub is_alone: bool,
}

/// Costs, with a tie for each of their literals.
#[derive(Drop)]
pub struct Sum {
    pub costs: Costs,
    pub ties: Seq<Tie>,
    /// Where notes have a place for each literal, one behind another, the first of these places.
    pub first_place: Option<u32>,
}
