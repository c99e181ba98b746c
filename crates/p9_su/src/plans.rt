// Sethi and Ullman's order of evaluation.
ghost use Rattle.std.specs.Prelude.{◌≡◌, ◌+◌, ◌*◌, ◌^◌, ◌<◌, ◌≤◌, ◌++◌, length, IfOk, OnOk};
ghost use Rattle.p9_su.specs.Shapes.{leaves_of, number_of};
ghost use Rattle.p9_su.specs.Game.{IsPlay};
ghost use Rattle.p9_su.specs.Order.{joined_label, label_of, labels_of, moves_of};

use crate::moves::{Move, Plan};
use crate::shapes::Shape;
use p9_base::NoMemory;
use std::alloc::{AllocError, Global};

// What the order needs to know of a node.
#[derive(Clone, Copy, Drop)]
struct Label {
    number: u8,
    leaves: u32,
}

/// A play on the shape with as few registers as there can be. A shape of 2^32 leaves is answered as
/// one for which there is no memory.
pub fn order(alloc: Global, shape: &Shape) -> Result<Plan, NoMemory>
    requires { number_of shape.now ≤ 8 }
    ensures { IfOk result (λ plan. IsPlay shape.now plan.moves.items (number_of shape.now)) }
{
    let mut labels = Vec::new(alloc);
    add_labels(shape, &mut labels)?;
    let mut moves = Vec::new(alloc);
    add_moves(shape, &labels, 0, 0, &mut moves)?;
    Ok(Plan { moves })
}

// Labels the nodes of a shape, each after its sons, and answers the label of the shape itself.
fn add_labels(shape: &Shape, labels: &mut Vec<Label>) -> Result<Label, NoMemory>
    requires { number_of shape.now ≤ 8 }
    ensures own { IfOk result (λ label. label ≡ label_of shape.now) }
    ensures all { OnOk result (labels.new.items ≡ labels.old.items ++ labels_of shape.now) }
{
    let label = match shape {
        Shape::Leaf => Label {
            number: 1,
            leaves: 1,
        },
        Shape::Pair(left, right) => {
            let left = add_labels(left, labels)?;
            let right = add_labels(right, labels)?;
            joined(left, right)?
        }
    };
    labels.push(label).map_err(AllocError::from)?;
    Ok(label)
}

// The label of a node whose sons have these labels.
fn joined(left: Label, right: Label) -> Result<Label, NoMemory>
    requires { left.number ≤ 8 }
    ensures { IfOk result (λ label. label ≡ joined_label left right) }
{
    let leaves = left.leaves.checked_add(right.leaves).ok_or(NoMemory)?;
    let number = if left.number == right.number {
        left.number + 1
    } else {
        left.number.max(right.number)
    };
    Ok(Label { number, leaves })
}

// How many nodes a shape with this label has.
fn nodes_of(label: Label) -> usize
    requires { 1 ≤ label.leaves }
    ensures { result + 1 ≡ 2 * label.leaves }
{
    2 * label.leaves as usize - 1
}

// Adds the moves that leave the shape's value in a register, where the shape's nodes have these
// labels and its first leaf this number.
fn add_moves(
    shape: &Shape,
    labels: &[Label],
    leaf: u32,
    register: u8,
    moves: &mut Vec<Move>,
) -> Result<(), NoMemory>
    requires labelled { labels.now ≡ labels_of shape.now }
    requires leaves { leaf + leaves_of shape.now < 2 ^ 32 }
    requires registers { register + number_of shape.now ≤ 8 }
    ensures { OnOk result (moves.new.items ≡ moves.old.items ++ moves_of shape.now leaf register) }
{
    match shape {
        Shape::Leaf => moves
            .push(Move::Load { leaf, register })
            .map_err(AllocError::from)?,
        Shape::Pair(left, right) => {
            let sons = &labels[..labels.len() - 1];
            let right_label = sons[sons.len() - 1];
            let (left_labels, right_labels) = sons.split_at(sons.len() - nodes_of(right_label));
            let left_label = left_labels[left_labels.len() - 1];
            let right_leaf = leaf + left_label.leaves;
            if right_label.number <= left_label.number {
                add_moves(left, left_labels, leaf, register, moves)?;
                add_moves(right, right_labels, right_leaf, register + 1, moves)?;
            } else {
                add_moves(right, right_labels, right_leaf, register, moves)?;
                add_moves(left, left_labels, leaf, register + 1, moves)?;
            }
            let into = register;
            let with = register + 1;
            moves
                .push(Move::Combine { into, with })
                .map_err(AllocError::from)?;
        }
    }
    Ok(())
}
