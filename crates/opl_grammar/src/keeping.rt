//! Trees that are kept while more is read, and put into boxes and lists. Where a step fails they are let go of here, so that
//! whoever reads holds no tree there, and each such place is short to prove.
ghost use Rattle.std.specs.Prelude.{◌≡◌, [], ◌∷◌, ◌++◌, MatchResult, Ok, Err, IsOk};
ghost use Rattle.opl_tree.specs.declared.fault.SyntaxFault.TheVariants.{OutOfMemory};

use opl_let_go::LetGo;
use opl_list::{Boxed, Seq};
use opl_tree::SyntaxFault;
use std::alloc::{AllocFailed, Global};

/// A value beside what was read behind it, or the fault of the latter.
pub fn keep<T: LetGo, U, E>(value: T, read: Result<U, E>) -> Result<(T, U), E>
    ensures { MatchResult result (λ both. (both.0 ≡ value) × (read ≡ Ok both.1)) (λ fault. read ≡ Err fault) }
{
    match read {
        Ok(other) => Ok((value, other)),
        Err(fault) => {
            value.let_go();
            Err(fault)
        }
    }
}

/// A box that holds the value.
pub fn boxed<T: LetGo>(alloc: Global, value: T) -> Result<Boxed<T>, SyntaxFault>
    ensures { MatchResult result (λ b. b ≡ value) (λ fault. fault ≡ OutOfMemory) }
{
    match Box::new(alloc, value) {
        Ok(inner) => Ok(Boxed::from_box(inner)),
        Err(refused) => {
            refused.value.let_go();
            Err(SyntaxFault::OutOfMemory)
        }
    }
}

/// What a vector holds to which a part was added, or want of memory.
fn grown<T: LetGo>(items: Vec<T>, added: Result<(), AllocFailed<T>>) -> Result<Seq<T>, SyntaxFault>
    ensures { MatchResult result (λ all. (all ≡ items.items) × IsOk added) (λ fault. fault ≡ OutOfMemory) }
{
    match added {
        Ok(()) => Ok(Seq::from_vec(items)),
        Err(refused) => {
            refused.value.let_go();
            Seq::from_vec(items).let_go();
            Err(SyntaxFault::OutOfMemory)
        }
    }
}

/// A list, then one part.
pub fn with_last<T: LetGo>(before: Seq<T>, last: T) -> Result<Seq<T>, SyntaxFault>
    ensures { MatchResult result (λ all. all ≡ before ++ last ∷ []) (λ fault. fault ≡ OutOfMemory) }
{
    let mut all = before.into_vec();
    let added = all.push(last);
    grown(all, added)
}

/// One part, then a list.
pub fn with_first<T: LetGo>(first: T, rest: Seq<T>) -> Result<Seq<T>, SyntaxFault>
    ensures { MatchResult result (λ all. all ≡ first ∷ rest) (λ fault. fault ≡ OutOfMemory) }
{
    let mut all = rest.into_vec();
    let added = all.insert(0, first);
    grown(all, added)
}
