// The check of a table's shape. Names are checked where code is made.
ghost use Rattle.std.specs.Prelude.{◌≡◌, ◌≢◌, IfSome, IsNone, ℕ, ◌<◌, ◌≤◌, true, length, drop, slice_index, IfOk, IfErr, Ok, Err};
ghost use Rattle.std.specs.List.{list_all};
ghost use Rattle.language.specs.Fields.{admits, child_in, formed, is_of, named};
ghost use Rattle.language.specs.Fields.{children as children_of};
ghost use Rattle.language.specs.Kinds.{kind_number};
ghost use Rattle.language.specs.Table.{at, lower, fitting, root_of, Tallied};
ghost use Rattle.language.specs.Verdicts.{node_verdict, parent_verdict, root_verdict, upward, shape_verdict, tree_verdict};

use crate::form::Form;
use crate::kind::{Field, Kind, Rule, Sort, UnknownKind};
use vocabulary::node::Node;
use vocabulary::refusal::{Cause, Refusal};

// Nodes of accepted shape.
#[derive(Clone, Copy)]
pub struct Shaped<'a> {
    pub nodes: &'a [Node],
    pub ghost some: { 0 < length nodes.now },
    pub ghost few: { length nodes.now ≤ 512 },
    pub ghost shape: { shape_verdict nodes.now ≡ Ok tt },
}

impl<'a> Shaped<'a> {
    pub fn nodes(self) -> &'a [Node]
        ensures { result.now ≡ self.entry.nodes.now }
    {
        self.nodes
    }

    // The number of the root, which is the last node.
    pub fn root(self) -> u16
        ensures { result ≡ root_of self.entry.nodes.now }
    {
        (self.nodes.len() - 1) as u16
    }

    // The kind of a node.
    pub fn kind(self, n: u16) -> Kind
        requires { n < length self.nodes.now }
        ensures { kind_number result ≡ (at self.entry.nodes.now n).kind }
    {
        match Kind::try_from(self.nodes[usize::from(n)].kind) {
            Ok(kind) => kind,
            Err(UnknownKind) => unreachable!(),
        }
    }

    // What a node says.
    pub fn form(self, n: u16) -> Form
        requires { n < length self.nodes.now }
        ensures { result.node ≡ at self.entry.nodes.now n }
    {
        Form {
            node: self.nodes[usize::from(n)],
            kind: self.kind(n),
        }
    }
}

// As many nodes as a table may have.
#[derive(Clone, Copy)]
struct Counted<'a> {
    nodes: &'a [Node],
    ghost some: { 0 < length nodes.now },
    ghost few: { length nodes.now ≤ 512 },
}

// The fields of a node, each with its rule; where its kind is unknown, fields that break their rules and name no child.
fn fields_of(node: Node) -> [Field; 4]
    ensures formed { list_all (λ f. admits f.rule f.value) result ≡ formed node }
    ensures children { named (drop 1 result) ≡ children_of node }
{
    let Ok(kind) = Kind::try_from(node.kind) else {
        return [Field {
            rule: Rule::Unused,
            value: 1,
        }; 4];
    };
    kind.fields().of(node)
}

// Whether each field keeps its rule.
fn keep_rules(fields: &[Field]) -> bool
    ensures { result ≡ list_all (λ f. admits f.rule f.value) fields.now }
{
    fields.iter().all(|field| field.keeps_rule())
}

// Whether the child of a field, if it names one, has a number below `n`.
fn is_lower(field: Field, n: usize) -> bool
    ensures { result ≡ lower n (child_in field.rule field.value) }
{
    match field.child() {
        Some(child) => usize::from(child.number) < n,
        None => true,
    }
}

// Whether each child has a number below `n`.
fn are_lower(fields: &[Field], n: usize) -> bool
    ensures { result ≡ list_all (λ f. lower n (child_in f.rule f.value)) fields.now }
{
    fields.iter().all(|field| is_lower(*field, n))
}

// The first number that is not a child exactly once.
fn first_fault(tallies: &[u16]) -> Option<usize>
    ensures found { IfSome result (λ n. (n < length tallies.now) × (slice_index tallies.now n ≢ 1) × ((k : ℕ) → k < n → slice_index tallies.now k ≡ 1)) }
    ensures none { IsNone result → (k : ℕ) → k < length tallies.now → slice_index tallies.now k ≡ 1 }
{
    tallies.iter().position(|&tally| tally != 1)
}

impl Counted<'_> {
    // The number of the last node, which is the root.
    fn root(self) -> usize
        ensures { result ≡ root_of self.entry.nodes.now }
    {
        self.nodes.len() - 1
    }

    // Whether there is a node of a sort at a place.
    fn has(self, sort: Sort, place: usize) -> bool
        ensures { result ≡ is_of sort (at self.entry.nodes.now place).kind }
    {
        let Some(node) = self.nodes.get(place) else {
            return false;
        };
        let Ok(kind) = Kind::try_from(node.kind) else {
            return false;
        };
        kind.sort() == sort
    }

    // Whether the child of a field, if it names one, is of the sort that is wanted.
    fn is_fitting(self, field: Field) -> bool
        ensures { result ≡ fitting self.entry.nodes.now (child_in field.rule field.value) }
    {
        match field.child() {
            Some(child) => self.has(child.wanted, usize::from(child.number)),
            None => true,
        }
    }

    // Whether each child is of the sort that is wanted.
    fn are_fitting(self, fields: &[Field]) -> bool
        ensures { result ≡ list_all (λ f. fitting self.entry.nodes.now (child_in f.rule f.value)) fields.now }
    {
        fields.iter().all(|field| self.is_fitting(*field))
    }

    // A node by itself: the first of its faults. By ranges of kinds with guards, as a rule of the project has the node check.
    fn check_node(self, n: usize, node: Node, fields: [Field; 4]) -> Result<(), Refusal>
        requires here { n < length self.nodes.now }
        requires is { node ≡ at self.nodes.now n }
        requires formed { list_all (λ f. admits f.rule f.value) fields ≡ formed node }
        requires lower { list_all (λ f. lower n (child_in f.rule f.value)) (drop 1 fields) ≡ lower n (children_of node) }
        requires fitting { list_all (λ f. fitting self.nodes.now (child_in f.rule f.value)) (drop 1 fields) ≡ fitting self.nodes.now (children_of node) }
        ensures { result ≡ node_verdict self.entry.nodes.now n }
    {
        let number = n as u16;
        match node.kind {
            1..=7 | 10..=14 | 20..=26 if !keep_rules(&fields) => Err(Cause::FieldRule.at(number)),
            1..=7 | 10..=14 | 20..=26 if !are_lower(&fields[1..], n) => Err(Cause::ChildNotLower.at(
                number,
            )),
            1..=7 | 10..=14 | 20..=26 if !self.are_fitting(&fields[1..]) => Err(Cause::ChildSort.at(
                number,
            )),
            1..=7 | 10..=14 | 20..=26 => Ok(()),
            _ => Err(Cause::FieldRule.at(number)),
        }
    }

    // Each node by itself; at the end, how often each is a child.
    fn check_nodes(self) -> Result<[u16; 512], Refusal>
        ensures passed { IfOk result (λ tallies. (upward (node_verdict self.entry.nodes.now) (length self.entry.nodes.now) 0 ≡ Ok tt) × Tallied self.entry.nodes.now tallies) }
        ensures refused { IfErr result (λ refusal. upward (node_verdict self.entry.nodes.now) (length self.entry.nodes.now) 0 ≡ Err refusal) }
    {
        let mut tallies = [0; 512];
        for (n, node) in self.nodes.iter().enumerate() {
            let fields = fields_of(*node);
            self.check_node(n, *node, fields)?;
            for field in &fields[1..] {
                if let Some(child) = field.child() {
                    tallies[usize::from(child.number)] += 1;
                }
            }
        }
        Ok(tallies)
    }

    // Each node but the last is a child exactly once.
    fn check_parents(self, tallies: [u16; 512]) -> Result<(), Refusal>
        requires { Tallied self.nodes.now tallies }
        ensures { result ≡ upward (parent_verdict self.entry.nodes.now) (root_of self.entry.nodes.now) 0 }
    {
        match first_fault(&tallies[..self.root()]) {
            Some(n) => Err(Cause::NotOneParent.at(n as u16)),
            None => Ok(()),
        }
    }

    // The root is a command.
    fn check_root(self) -> Result<(), Refusal>
        ensures { result ≡ root_verdict self.entry.nodes.now }
    {
        let root = self.root();
        if self.has(Sort::Command, root) {
            Ok(())
        } else {
            Err(Cause::RootNotCommand.at(root as u16))
        }
    }
}

// The shape of nodes: 1 to 512 of them, each by itself, then one parent for each but the last, then a command at the root.
pub fn check_shape(nodes: &[Node]) -> Result<Shaped<'_>, Refusal>
    ensures accepted { IfOk result (λ shaped. (tree_verdict nodes.now ≡ Ok tt) × (shaped.nodes.now ≡ nodes.now)) }
    ensures refused { IfErr result (λ refusal. tree_verdict nodes.now ≡ Err refusal) }
{
    if nodes.is_empty() || nodes.len() > 512 {
        return Err(Cause::TableLength.into());
    }
    let counted = Counted { nodes };
    let tallies = counted.check_nodes()?;
    counted.check_parents(tallies)?;
    counted.check_root()?;
    Ok(Shaped { nodes })
}
