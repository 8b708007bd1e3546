// The nodes that a tree over an operator list stands for.
ghost use Rattle.std.specs.Prelude.{◌≡◌, ◌∷◌, ◌++◌, [], List, Some, None, option_map, reverse, drop, IfOk};
ghost use Rattle.gh_fixity.specs.declared.item.Item.{Item as TheItem};
ghost use Rattle.gh_fixity.specs.Arrangement.{tree_in};
ghost use Rattle.gh_fixity.specs.Built.{across, built, from_tree, left_child as left_of, next_part, no_operands, no_pattern, op_nodes, operand_leaf, operator_of, pat_nodes, pattern_leaf, right_child as right_of, sign_of};
ghost use Rattle.gh_fixity.specs.Spans.{operand_span, operands_span, pat_operand_span, pattern_span};
ghost use Rattle.gh_program.specs.declared.expressions.Operands.TheVariants as v_Operands;
ghost use Rattle.gh_program.specs.declared.patterns.Pattern.TheVariants as v_Pattern;

use crate::item::Arranged;
use crate::part::Part;
use crate::spans;
use gh_base::{NoMemory, Span};
use gh_program::{Aexp, GenCon, Occurrence, Operand, Operands, PatOperand, Pattern, backwards};
use sqlite_items::{Boxed, Items};
use std::alloc::Global;

const START: Span = Span {
    file: 0,
    from: 0,
    to: 0,
};

// Takes the next part from the end of those that wait, the last of which is the first.
fn next(waiting: &mut Items<Part>) -> Option<Part>
    ensures part { result ≡ next_part (reverse waiting.old) }
    ensures rest { reverse waiting.new ≡ drop 1 (reverse waiting.old) }
{
    waiting.pop()
}

fn sign(part: Option<Part>) -> Result<Span, NoMemory>
    ensures { IfOk result (λ span. sign_of part ≡ Some span) }
{
    match part {
        Some(Part::Minus(span)) => Ok(span),
        _ => Err(NoMemory),
    }
}

fn operator(part: Option<Part>) -> Result<Occurrence, NoMemory>
    ensures { IfOk result (λ op. operator_of part ≡ Some op) }
{
    match part {
        Some(Part::Op(op)) => Ok(op),
        _ => Err(NoMemory),
    }
}

fn across_both(left: Span, right: Span) -> Span
    ensures { result ≡ across left right }
{
    Span {
        file: left.file,
        from: left.from,
        to: right.to,
    }
}

fn operand_alone(alloc: Global, operand: Boxed<Operand>) -> Result<Boxed<Operands>, NoMemory>
    ensures { IfOk result (λ node. node ≡ v_Operands.Listed (operand_span operand) None operand []) }
{
    let span = spans::operand(operand.get());
    let node = Operands::Listed(span, None, operand.into_inner(), Items::new(alloc));
    Ok(Boxed::new(alloc, node)?)
}

fn leaf(alloc: Global, part: Option<Part>) -> Result<Boxed<Operands>, NoMemory>
    ensures { IfOk result (λ node. operand_leaf part ≡ Some node) }
{
    match part {
        Some(Part::Operand(operand)) => operand_alone(alloc, operand),
        _ => Err(NoMemory),
    }
}

fn negate(alloc: Global, mark: Span, operand: Boxed<Operands>) -> Result<Boxed<Operands>, NoMemory>
    ensures { IfOk result (λ node. node ≡ op_nodes.negate mark operand) }
{
    let span = across_both(mark, spans::operands(operand.get()));
    Ok(Boxed::new(alloc, Operands::Negate(span, mark, operand))?)
}

fn pair(
    alloc: Global,
    left: Boxed<Operands>,
    op: Occurrence,
    right: Boxed<Operands>,
) -> Result<Boxed<Operands>, NoMemory>
    ensures { IfOk result (λ node. node ≡ op_nodes.pair_of left op right) }
{
    let span = across_both(spans::operands(left.get()), spans::operands(right.get()));
    Ok(Boxed::new(alloc, Operands::Infix(span, left, op, right))?)
}

// The node of a tree, whose parts are taken from those that wait.
fn grow(
    alloc: Global,
    tree: Arranged,
    waiting: &mut Items<Part>,
) -> Result<Boxed<Operands>, NoMemory>
    ensures { IfOk result (λ node. (items : List TheItem) → built op_nodes (tree_in items tree) (reverse waiting.old) ≡ Some (node, reverse waiting.new)) }
{
    match tree {
        Arranged::Leaf(_) => leaf(alloc, next(waiting)),
        Arranged::Minus(inner) => {
            let mark = sign(next(waiting))?;
            let operand = grow(alloc, inner.into_inner(), waiting)?;
            negate(alloc, mark, operand)
        }
        Arranged::Pair(_, first, second) => {
            let left = grow(alloc, first.into_inner(), waiting)?;
            let op = operator(next(waiting))?;
            let right = grow(alloc, second.into_inner(), waiting)?;
            pair(alloc, left, op, right)
        }
    }
}

fn nothing(alloc: Global) -> Result<Boxed<Operands>, NoMemory>
    ensures { IfOk result (λ node. node ≡ no_operands) }
{
    let unit = Boxed::new(alloc, Aexp::Con(GenCon::Unit(START)))?;
    let operand = Operand::Apply(START, unit, Items::new(alloc));
    Ok(Boxed::new(
        alloc,
        Operands::Listed(START, None, operand, Items::new(alloc)),
    )?)
}

/// The node of a tree over these parts.
pub fn operands_from(
    alloc: Global,
    tree: Option<Arranged>,
    parts: Items<Part>,
) -> Result<Boxed<Operands>, NoMemory>
    ensures { IfOk result (λ node. (items : List TheItem) → node ≡ from_tree op_nodes no_operands parts (option_map (tree_in items) tree)) }
{
    match tree {
        Some(tree) => {
            let mut waiting = backwards(alloc, parts)?;
            grow(alloc, tree, &mut waiting)
        }
        None => nothing(alloc),
    }
}

fn pattern_alone(alloc: Global, operand: Boxed<PatOperand>) -> Result<Boxed<Pattern>, NoMemory>
    ensures { IfOk result (λ node. node ≡ v_Pattern.Listed (pat_operand_span operand) operand []) }
{
    let span = spans::pat_operand(operand.get());
    let node = Pattern::Listed(span, operand.into_inner(), Items::new(alloc));
    Ok(Boxed::new(alloc, node)?)
}

fn pat_leaf(alloc: Global, part: Option<Part>) -> Result<Boxed<Pattern>, NoMemory>
    ensures { IfOk result (λ node. pattern_leaf part ≡ Some node) }
{
    match part {
        Some(Part::Pattern(operand)) => pattern_alone(alloc, operand),
        _ => Err(NoMemory),
    }
}

fn pat_pair(
    alloc: Global,
    left: Boxed<Pattern>,
    op: Occurrence,
    right: Boxed<Pattern>,
) -> Result<Boxed<Pattern>, NoMemory>
    ensures { IfOk result (λ node. node ≡ pat_nodes.pair_of left op right) }
{
    let span = across_both(spans::pattern(left.get()), spans::pattern(right.get()));
    Ok(Boxed::new(alloc, Pattern::Infix(span, left, op, right))?)
}

// The pattern of a tree, whose parts are taken from those that wait.
fn grow_pattern(
    alloc: Global,
    tree: Arranged,
    waiting: &mut Items<Part>,
) -> Result<Boxed<Pattern>, NoMemory>
    ensures { IfOk result (λ node. (items : List TheItem) → built pat_nodes (tree_in items tree) (reverse waiting.old) ≡ Some (node, reverse waiting.new)) }
{
    match tree {
        Arranged::Leaf(_) => pat_leaf(alloc, next(waiting)),
        Arranged::Minus(_) => Err(NoMemory),
        Arranged::Pair(_, first, second) => {
            let left = grow_pattern(alloc, first.into_inner(), waiting)?;
            let op = operator(next(waiting))?;
            let right = grow_pattern(alloc, second.into_inner(), waiting)?;
            pat_pair(alloc, left, op, right)
        }
    }
}

fn no_pattern_here(alloc: Global) -> Result<Boxed<Pattern>, NoMemory>
    ensures { IfOk result (λ node. node ≡ no_pattern) }
{
    let operand = PatOperand::Negative(START, 0);
    Ok(Boxed::new(alloc, Pattern::Listed(START, operand, Items::new(alloc)))?)
}

/// The pattern of a tree over these parts.
pub fn pattern_from(
    alloc: Global,
    tree: Option<Arranged>,
    parts: Items<Part>,
) -> Result<Boxed<Pattern>, NoMemory>
    ensures { IfOk result (λ node. (items : List TheItem) → node ≡ from_tree pat_nodes no_pattern parts (option_map (tree_in items) tree)) }
{
    match tree {
        Some(tree) => {
            let mut waiting = backwards(alloc, parts)?;
            grow_pattern(alloc, tree, &mut waiting)
        }
        None => no_pattern_here(alloc),
    }
}

/// The left operand of the root, where it has one.
pub fn left_child(tree: Option<Arranged>) -> Option<Arranged>
    ensures { (items : List TheItem) → option_map (tree_in items) result ≡ left_of (option_map (tree_in items) tree) }
{
    match tree {
        Some(Arranged::Pair(_, left, _)) => Some(left.into_inner()),
        Some(Arranged::Leaf(_)) => None,
        Some(Arranged::Minus(_)) => None,
        None => None,
    }
}

/// The right operand of the root, where it has one.
pub fn right_child(tree: Option<Arranged>) -> Option<Arranged>
    ensures { (items : List TheItem) → option_map (tree_in items) result ≡ right_of (option_map (tree_in items) tree) }
{
    match tree {
        Some(Arranged::Pair(_, _, right)) => Some(right.into_inner()),
        Some(Arranged::Leaf(_)) => None,
        Some(Arranged::Minus(_)) => None,
        None => None,
    }
}

/// Both operands of the root, where it has them.
pub fn children(tree: Option<Arranged>) -> (Option<Arranged>, Option<Arranged>)
    ensures left { (items : List TheItem) → option_map (tree_in items) result.0 ≡ left_of (option_map (tree_in items) tree) }
    ensures right { (items : List TheItem) → option_map (tree_in items) result.1 ≡ right_of (option_map (tree_in items) tree) }
{
    match tree {
        Some(Arranged::Pair(_, left, right)) => (Some(left.into_inner()), Some(right.into_inner())),
        Some(Arranged::Leaf(_)) => (None, None),
        Some(Arranged::Minus(_)) => (None, None),
        None => (None, None),
    }
}
