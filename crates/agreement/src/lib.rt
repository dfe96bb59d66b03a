// The agreement of trees and code. The functions do nothing: each is there for its contract, which is a theorem about the
// definitions that the contracts of the language and of the machine cite.
#![tactic(auto)]

ghost use Rattle.agreement.specs.Agreement.{Agreement, ExactVisits};

// What the machine does with the code of a tree is what the tree means.
pub fn tree_and_code_agree()
    ensures { Agreement }
{}

// The number of visits after which a meaning ends is one number.
pub fn visits_are_exact()
    ensures { ExactVisits }
{}
