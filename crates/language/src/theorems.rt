// What follows from the definitions alone. The functions do nothing: their contracts are the theorems.
ghost use Rattle.std.specs.Prelude.{◌≡◌, ℕ, ◌+◌, ◌*◌, ◌≤◌, List, length, Ok};
ghost use Rattle.vocabulary.specs.declared.node.Node.{Node};
ghost use Rattle.language.specs.Reading.{tree_of};
ghost use Rattle.language.specs.Sound.{Sound};
ghost use Rattle.language.specs.Translation.{program};
ghost use Rattle.language.specs.Tree.{Command, size_c};
ghost use Rattle.language.specs.Verdicts.{shape_verdict, table_verdict};
ghost use Rattle.language.specs.WellFormed.{WellFormed};

// A table is accepted exactly when it is well formed.
pub fn accepts_the_well_formed()
    ensures only { (table : List ℕ) → table_verdict table ≡ Ok tt → WellFormed table }
    ensures every { (table : List ℕ) → WellFormed table → table_verdict table ≡ Ok tt }
{}

// Nodes of accepted shape can be translated, and the tree of their root has them all.
pub fn one_tree_of_all_nodes()
    ensures sound { (nodes : List Node) → shape_verdict nodes ≡ Ok tt → Sound nodes }
    ensures size { (nodes : List Node) → shape_verdict nodes ≡ Ok tt → size_c (tree_of nodes) ≡ length nodes }
{}

// Code has at most 3 words a node, and the HALT.
pub fn three_words_a_node()
    ensures { (t : Command) → length (program t) ≤ 3 * size_c t + 1 }
{}
