//! The members of an object, in the order of their keys.
ghost use Rattle.std.specs.Prelude.{◌≡◌, false, is_some, option_map, IfSome, IfNone, None};
ghost use Rattle.serde_json.specs.View.{members_view, view};
ghost use Rattle.fl_text.specs.Inner.Drafts.{fields_view, node_from, node_in_members};
ghost use Rattle.fl_text.specs.Inner.Members.{are_none, behind, found};

use serde_json::{Map, Value};

/// What a node's object has at the keys that a node may have.
#[derive(Drop)]
pub struct Fields {
    pub append: Option<Value>,
    pub close: Option<Value>,
    pub ins: Option<Value>,
    pub kind: Option<Value>,
    pub outs: Option<Value>,
    pub path: Option<Value>,
    pub stage: Option<Value>,
    pub text: Option<Value>,
    pub words: Option<Value>,
}

/// Takes all members of a node's object; None where a key is another one.
pub fn take_fields(members: Map<String, Value>) -> Option<Fields>
    ensures some { IfSome result (λ fields. node_from (fields_view fields) ≡ node_in_members (members_view members.entries)) }
    ensures none { IfNone result (node_in_members (members_view members.entries) ≡ None) }
{
    let mut left = members;
    let append = take(&mut left, "append");
    let close = take(&mut left, "close");
    let ins = take(&mut left, "in");
    let kind = take(&mut left, "kind");
    let outs = take(&mut left, "out");
    let path = take(&mut left, "path");
    let stage = take(&mut left, "stage");
    let text = take(&mut left, "text");
    let words = take(&mut left, "words");
    if !is_none_left(&left) {
        return None;
    }
    Some(Fields {
        append,
        close,
        ins,
        kind,
        outs,
        path,
        stage,
        text,
        words,
    })
}

/// Takes the first member's value, where it has this key.
pub fn take(members: &mut Map<String, Value>, key: &str) -> Option<Value>
    ensures found { option_map view result ≡ found key.now (members_view members.old.entries) }
    ensures behind { members_view members.new.entries ≡ behind key.now (members_view members.old.entries) }
{
    if !is_first(members, key) {
        return None;
    }
    match members.pop_first() {
        Some((_, value)) => Some(value),
        None => None,
    }
}

/// Whether the first member has this key.
fn is_first(members: &Map<String, Value>, key: &str) -> bool
    ensures { result ≡ is_some (found key.now (members_view members.now.entries)) }
{
    match members.first_key_value() {
        Some((name, _)) => name.as_str() == key,
        None => false,
    }
}

/// Whether no member is left.
pub fn is_none_left(members: &Map<String, Value>) -> bool
    ensures { result ≡ are_none (members_view members.now.entries) }
{
    match members.first_key_value() {
        Some(_) => false,
        None => true,
    }
}
