// What a refusal of a table is about: which field of which node, what it holds, and what would be right.
use crate::visible::latest;
use crate::words::{Called, Wanted};
use language::kind::{Field, Kind, Rule, Sort};
use language::read::read_table;
use language::rules::children;
use std::alloc::{AllocError, Global};
use vocabulary::node::Node;
use vocabulary::refusal::{Cause, Refusal};

// What the fields of a node are called, in the order of its rules.
const FIELDS: [&str; 4] = ["byte 1", "field a", "field b", "field c"];

// A refusal of a table that has the node which it names: that node, its number and what it is called, and the cause.
#[derive(Clone, Copy)]
struct Fault<'a> {
    heap: Global,
    nodes: &'a [Node],
    node: Node,
    n: u16,
    form: Called,
    cause: Cause,
}

// What a use of a name wants it to be. No Display of Kind, whose own words name the use, as "function call".
fn wanted_name(kind: Option<Kind>) -> &'static str {
    match kind {
        Some(Kind::ProcedureCall) => "a procedure",
        Some(Kind::FunctionCall) => "a function",
        _ => "a constant, a variable or a parameter",
    }
}

impl<'a> Fault<'a> {
    fn new(heap: Global, nodes: &'a [Node], refusal: Refusal) -> Option<Fault<'a>> {
        let n = refusal.node;
        let node = *nodes.get(usize::from(n))?;
        Some(Fault {
            heap,
            nodes,
            node,
            n,
            form: Called::at(nodes, n),
            cause: refusal.cause,
        })
    }

    // Whether a field of the node is what the refusal is about.
    fn is_of(&self, field: Field) -> bool {
        match (self.cause, field.rule) {
            (Cause::FieldRule, _) => !field.keeps_rule(),
            (Cause::ChildNotLower, Rule::Child(_)) => field.value >= self.n,
            (Cause::ChildSort, Rule::Child(sort)) => {
                let Called(kind) = Called::at(self.nodes, field.value);
                kind.map(|kind| kind.sort()) != Some(sort)
            }
            _ => false,
        }
    }

    fn field_text(&self, called: &str, field: Field) -> Result<String, AllocError> {
        let n = self.n;
        let form = self.form;
        let value = field.value;
        match (self.cause, field.rule) {
            (Cause::ChildNotLower, _) => format!(in self.heap;
                "node {n} ({form}): {called} names node {value}; a child has a lower number than its parent"
            ),
            (Cause::ChildSort, Rule::Child(wanted)) => {
                let child = Called::at(self.nodes, value);
                format!(in self.heap;
                    "node {n} ({form}): {called} names node {value} ({child}); {wanted} is wanted there"
                )
            }
            (_, rule) => {
                let wanted = Wanted(rule);
                format!(in self.heap; "node {n} ({form}): {called} is {value}; it {wanted}")
            }
        }
    }

    // On the first field that the refusal is about, or on the kind.
    fn fields_text(&self) -> Result<String, AllocError> {
        if let Called(Some(kind)) = self.form {
            for (called, field) in FIELDS.iter().zip(kind.fields().of(self.node)) {
                if self.is_of(field) {
                    return self.field_text(*called, field);
                }
            }
        }
        let n = self.n;
        let kind = self.node.kind;
        format!(in self.heap;
            "node {n} has kind {kind}; kinds are 1 to 7 (commands), 10 to 14 (declarations) and 20 to 26 (expressions)"
        )
    }

    // How many child fields name the node.
    fn parents(&self) -> usize {
        let n = self.n;
        self.nodes.iter().fold(0usize, |count, node| {
            let children = children(*node);
            let naming = children.as_slice().iter().filter(|child| child.number == n);
            count.saturating_add(naming.count())
        })
    }

    fn name_text(&self) -> Result<String, AllocError> {
        let n = self.n;
        let form = self.form;
        let name = self.node.tag;
        let wanted = wanted_name(form.0);
        match latest(self.heap, self.nodes, usize::from(n), name)? {
            Some(visible) => {
                let declared = visible.declared;
                let at = visible.node;
                format!(in self.heap;
                    "node {n} ({form}): name {name} is {declared} here, by node {at}; {wanted} is wanted"
                )
            }
            None => format!(in self.heap;
                "node {n} ({form}): no declaration of name {name} is visible here; {wanted} is wanted"
            ),
        }
    }

    fn text(&self) -> Result<String, AllocError> {
        let n = self.n;
        let form = self.form;
        match self.cause {
            Cause::NotOneParent => {
                let count = self.parents();
                format!(in self.heap;
                    "node {n} ({form}) is named as a child {count} times; every node but the last is named exactly once"
                )
            }
            Cause::RootNotCommand => {
                let wanted = Sort::Command;
                format!(in self.heap;
                    "node {n} ({form}) is the last, and so the root, which must be {wanted}"
                )
            }
            Cause::NameNotVisible | Cause::NameRole => self.name_text(),
            _ => self.fields_text(),
        }
    }
}

// A sentence on a refusal of a table: on the node at fault, or on the length where the table has no such node.
pub fn table_advice(heap: Global, table: &[u8], refusal: Refusal) -> Result<String, AllocError> {
    if let Ok(nodes) = read_table(table) {
        if let Some(fault) = Fault::new(heap, nodes.as_slice(), refusal) {
            return fault.text();
        }
    }
    let size = table.len();
    format!(in heap; "it has {size} bytes; a table has 8 bytes a node, for 1 to 512 nodes")
}
