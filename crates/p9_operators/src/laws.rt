// Laws of the definitions in `specs/`. Each function does nothing; its contract is the law.
ghost use Rattle.std.specs.Prelude.{◌≡◌};
ghost use Rattle.p9_lang.specs.Types.{TypeTree, Tags};
ghost use Rattle.p9_lang.specs.Constants.{is_null_constant, constant_of};
ghost use Rattle.p9_lang.specs.Modules.{Typed};
ghost use Rattle.p9_cmean.specs.Expressions.{operand_type};
ghost use Rattle.p9_tree.specs.Trees.{Tree};
ghost use Rattle.p9_lower.specs.Operators.{passed_tree, assigned_tree};
ghost use Rattle.p9_operators.specs.Converting.{passed_from, assigned_from};

/// What is passed and assigned by an expression's type as an operand, and by whether it is the null
/// constant, is what the definition gives for the expression.
pub fn expressions_convert()
    ensures passed { (tags : Tags) (e : Typed) (to : TypeTree) (tree : Tree)
        → passed_from tags (operand_type e) (is_null_constant (constant_of tags e)) to tree ≡ passed_tree tags e to tree }
    ensures assigned { (tags : Tags) (e : Typed) (type : TypeTree) (to value : Tree)
        → assigned_from tags (operand_type e) (is_null_constant (constant_of tags e)) type to value
        ≡ assigned_tree tags e type to value }
{}
