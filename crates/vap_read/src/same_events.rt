//! Objects with their keys, and events.

use crate::event::Event;
use crate::key::Key;
use crate::object::{Content, Object};
use crate::object_map::ObjectMap;
use base_containers::Same;

impl Same for Key {
    fn same(&self, other: &Key) -> bool {
        self.api_version.same(&other.api_version)
            && self.kind.same(&other.kind)
            && self.namespace.same(&other.namespace)
            && self.name.same(&other.name)
    }
}

impl Same for Content {
    fn same(&self, other: &Content) -> bool {
        match (self, other) {
            (Content::Policy(one), Content::Policy(another)) => one.same(another),
            (Content::Binding(one), Content::Binding(another)) => one.same(another),
            (Content::Other, Content::Other) => true,
            _ => false,
        }
    }
}

impl Same for Object {
    fn same(&self, other: &Object) -> bool {
        self.key.same(&other.key)
            && self.content.same(&other.content)
            && self.document.same(&other.document)
    }
}

impl Same for ObjectMap {
    fn same(&self, other: &ObjectMap) -> bool {
        let mut others = other.iter();
        for (key, object) in self.iter() {
            let Some((one, another)) = others.next() else {
                return false;
            };
            if !key.same(one) || !object.same(another) {
                return false;
            }
        }
        others.next().is_none()
    }
}

impl Same for Event {
    fn same(&self, other: &Event) -> bool {
        match (self, other) {
            (Event::Put(one), Event::Put(another)) => one.same(another),
            (Event::Removed(one), Event::Removed(another)) => one.same(another),
            (Event::Passed, Event::Passed) => true,
            (Event::Replaced(one), Event::Replaced(another)) => one.same(another),
            _ => false,
        }
    }
}
