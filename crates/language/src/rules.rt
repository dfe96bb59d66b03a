// What each field of a node has to hold, and the children that its fields name.
ghost use Rattle.std.specs.Prelude.{◌≡◌, []};
ghost use Rattle.std.specs.List.{cons_option};
ghost use Rattle.language.specs.Fields.{fields_in, admits, child_in, children};

use crate::kind::{ChildField, Field, Fields, Kind, Rule, Sort};
use vocabulary::node::Node;
use vocabulary::table::Table;

// The children of a node, a before b before c; none where its kind is unknown.
pub fn children(node: Node) -> Table<ChildField, 3>
    ensures { result ≡ children node }
{
    let mut children = Table::new(ChildField {
        wanted: Sort::Expression,
        number: 0,
    });
    if let Ok(kind) = Kind::try_from(node.kind) {
        let fields = kind.fields().of(node);
        for field in &fields[1..] {
            if let Some(child) = field.child() {
                children.push(child);
            }
        }
    }
    children
}

impl Fields {
    // The tag and the fields a, b and c of a node, each with its rule.
    pub fn of(self, node: Node) -> [Field; 4]
        ensures { result ≡ fields_in self node }
    {
        [
            Field {
                rule: self.tag,
                value: u16::from(node.tag),
            },
            Field {
                rule: self.a,
                value: node.a,
            },
            Field {
                rule: self.b,
                value: node.b,
            },
            Field {
                rule: self.c,
                value: node.c,
            },
        ]
    }
}

impl Field {
    // The child that it names, where its rule is that of a child.
    pub fn child(self) -> Option<ChildField>
        ensures { cons_option result [] ≡ child_in self.rule self.value }
    {
        match self.rule {
            Rule::Child(wanted) => Some(ChildField {
                wanted,
                number: self.value,
            }),
            Rule::Unused | Rule::Name | Rule::Truth | Rule::Operator | Rule::Half => None,
        }
    }

    // Whether it may hold its value, but for what is asked of a child.
    pub fn keeps_rule(self) -> bool
        ensures { result ≡ admits self.rule self.value }
    {
        self.rule.admits(self.value)
    }
}

impl Rule {
    // Whether a field may hold this value, but for what is asked of a child.
    pub fn admits(self, value: u16) -> bool
        ensures { result ≡ admits self value }
    {
        match self {
            Rule::Unused => value == 0,
            Rule::Name => value <= 255,
            Rule::Truth => value <= 1,
            Rule::Operator => matches!(value, 1..=6),
            Rule::Half | Rule::Child(_) => true,
        }
    }
}
