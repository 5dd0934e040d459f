//! A walk through the imports, depth first, with an explicit stack: chains of imports may be long.
ghost use Rattle.std.specs.Prelude.{◌≡◌, ◌<◌, [], ◌∷◌, ◌++◌, length, reverse, slice_set, IfOk, IsTrue, IsFalse};
ghost use Rattle.import_order.specs.Imports.{AreWithin, LeadsToCycle};
ghost use Rattle.import_order.specs.Walking.{IsWalk, IsWalking, IsStep, IsVisited, open_in};
ghost use Rattle.import_order.specs.declared.walk.Mark.TheVariants.{Open, Done};

use k_terms::{Many, Memory};
use std::alloc::Global;

/// What a walk knows of a module: nothing yet, that a frame looks at its imports, or that it stands in the order.
#[derive(Clone, Copy, Debug, PartialEq, Eq)]
pub enum Mark {
    Unseen,
    Open,
    Done,
}

/// A module of whose imports so many were looked at.
#[derive(Clone, Copy, Debug)]
pub struct Frame {
    pub importer: usize,
    pub next: usize,
}

/// The marks of all modules, the frames with the top one last, and the order so far.
#[derive(Debug, Drop)]
pub struct Walk {
    pub marks: Vec<Mark>,
    pub frames: Vec<Frame>,
    pub order: Vec<usize>,
}

/// A walk at its start: nothing is seen.
pub fn new_walk(alloc: Global, graph: &[Many<usize>]) -> Result<Walk, Memory>
    ensures walk { IfOk result (λ walk. IsWalk graph.now walk) }
    ensures frames { IfOk result (λ walk. walk.frames.items ≡ []) }
    ensures order { IfOk result (λ walk. walk.order.items ≡ []) }
{
    let marks = vec![in alloc; Mark::Unseen; graph.len()]?;
    Ok(Walk {
        marks,
        frames: Vec::new(alloc),
        order: Vec::new(alloc),
    })
}

/// Opens a module that is not seen.
fn open_frame(walk: &mut Walk, importer: usize) -> Result<(), Memory>
    requires { importer < length walk.old.marks.items }
    ensures marks { IfOk result (λ _. walk.new.marks.items ≡ slice_set walk.old.marks.items importer Open) }
    ensures frames { IfOk result (λ _. walk.new.frames.items ≡ walk.old.frames.items ++ record { importer = importer; next = 0 } ∷ []) }
    ensures order { IfOk result (λ _. walk.new.order.items ≡ walk.old.order.items) }
{
    walk.marks[importer] = Mark::Open;
    walk.frames.push(Frame { importer, next: 0 })?;
    Ok(())
}

/// Adds a module whose imports are all done to the order.
fn close_frame(walk: &mut Walk, importer: usize) -> Result<(), Memory>
    requires { importer < length walk.old.marks.items }
    ensures marks { IfOk result (λ _. walk.new.marks.items ≡ slice_set walk.old.marks.items importer Done) }
    ensures frames { IfOk result (λ _. walk.new.frames.items ≡ walk.old.frames.items) }
    ensures order { IfOk result (λ _. walk.new.order.items ≡ walk.old.order.items ++ importer ∷ []) }
{
    walk.marks[importer] = Mark::Done;
    walk.order.push(importer)?;
    Ok(())
}

/// Looks at the next import of the frame that was on top, and says whether no cycle was found.
fn step(walk: &mut Walk, graph: &[Many<usize>], top: Frame) -> Result<bool, Memory>
    requires within { AreWithin graph.now }
    requires walking { IsWalking graph.now walk.old.marks.items (top ∷ reverse walk.old.frames.items) walk.old.order.items }
    ensures step { IfOk result (λ on. IsTrue on → IsStep graph.now walk.old.marks.items (top ∷ reverse walk.old.frames.items) walk.old.order.items walk.new) }
    ensures cycle { IfOk result (λ on. IsFalse on → LeadsToCycle graph.now (open_in (top ∷ reverse walk.old.frames.items))) }
{
    let imports = graph[top.importer].as_slice();
    let Some(import) = imports.get(top.next) else {
        close_frame(walk, top.importer)?;
        return Ok(true);
    };
    walk.frames.push(Frame {
        importer: top.importer,
        next: top.next + 1,
    })?;
    match walk.marks[*import] {
        Mark::Done => Ok(true),
        Mark::Open => Ok(false),
        Mark::Unseen => {
            open_frame(walk, *import)?;
            Ok(true)
        }
    }
}

/// Adds the closure of a module to the order, and says whether no cycle was found.
pub fn visit(walk: &mut Walk, graph: &[Many<usize>], root: usize) -> Result<bool, Memory>
    requires within { AreWithin graph.now }
    requires root { root < length graph.now }
    requires walking { IsWalk graph.now walk.old }
    requires frames { walk.old.frames.items ≡ [] }
    ensures visited { IfOk result (λ on. IsTrue on → IsVisited graph.now root walk.old.order.items walk.new.order.items) }
    ensures walking { IfOk result (λ on. IsTrue on → IsWalk graph.now walk.new) }
    ensures frames { IfOk result (λ on. IsTrue on → walk.new.frames.items ≡ []) }
    ensures cycle { IfOk result (λ on. IsFalse on → LeadsToCycle graph.now (root ∷ [])) }
{
    let Mark::Unseen = walk.marks[root] else {
        return Ok(true);
    };
    open_frame(walk, root)?;
    while let Some(top) = walk.frames.pop() {
        if !step(walk, graph, top)? {
            return Ok(false);
        }
    }
    Ok(true)
}
