// What follows from the definitions alone. The functions do nothing: their contracts are the theorems.
ghost use Rattle.std.specs.Prelude.{◌≡◌, ℕ, ◌<◌, ◌≤◌, List, length, Ok, slice_index_or};
ghost use Rattle.vocabulary.specs.declared.node.Node.{Node};
ghost use Rattle.language.specs.Verdicts.{shape_verdict};
ghost use Rattle.listing.specs.Columns.{Aligned, EvenCode};
ghost use Rattle.listing.specs.Counts.{OneLineEach};
ghost use Rattle.listing.specs.Example.{example_nodes, example_code, example_page};
ghost use Rattle.listing.specs.Page.{page};
ghost use Rattle.listing.specs.Rows.{row, rows_of};

// The page of nodes of accepted shape has a line for each node, and for each word.
pub fn a_line_for_each_node_and_word()
    ensures { (nodes : List Node) → shape_verdict nodes ≡ Ok tt → OneLineEach nodes }
{}

// The columns hold: in the tree of up to 512 nodes, however deep, and in the code.
pub fn columns_hold()
    ensures tree { (nodes : List Node) → shape_verdict nodes ≡ Ok tt → length nodes ≤ 512 → (i : ℕ) → i < length (rows_of nodes) → Aligned (slice_index_or (rows_of nodes) i (row 0 0)) }
    ensures code { EvenCode }
{}

// The definitions give the page that was worked out by hand.
pub fn the_page_as_worked_out()
    ensures { page example_nodes example_code ≡ example_page }
{}
