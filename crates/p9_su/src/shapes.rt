// Shapes of expressions, and Sethi and Ullman's number.
ghost use Rattle.std.specs.Prelude.{◌≡◌, ℕ, ◌-◌, ◌^◌, ◌<◌, ◌≤◌, min};
ghost use Rattle.p9_su.specs.Shapes.{number_of};
ghost use Rattle.p9_su.specs.Game.{CanBePlayed};

/// An expression of operands and operators with two operands, as far as the order of evaluation
/// depends on it.
#[derive(Drop)]
pub enum Shape {
    Leaf,
    Pair(Box<Shape>, Box<Shape>),
}

/// The least number of registers with which the shape's value can be made.
///
/// No shape that fits a machine's memory comes near the end of the range: one with the number n has
/// at least 2^(n-1) leaves.
pub fn number(shape: &Shape) -> u32
    ensures rule { result ≡ min (number_of shape.now) (2 ^ 32 - 1) }
    ensures enough { result < 2 ^ 32 - 1 → CanBePlayed shape.now result }
    ensures least { (count : ℕ) → CanBePlayed shape.now count → result ≤ count }
{
    match shape {
        Shape::Leaf => 1,
        Shape::Pair(left, right) => {
            let left = number(left);
            let right = number(right);
            if left == right {
                left.saturating_add(1)
            } else {
                left.max(right)
            }
        }
    }
}
