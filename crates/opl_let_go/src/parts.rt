//! Boxes, lists and tuples of what can be let go of.
use crate::LetGo;
use opl_list::{Boxed, Seq};

impl LetGo for () {
    fn let_go(self) {}
}

impl LetGo for bool {
    fn let_go(self) {}
}

impl<T: LetGo> LetGo for Boxed<T> {
    fn let_go(self) {
        self.into_inner().let_go();
    }
}

impl<T: LetGo> LetGo for Option<T> {
    fn let_go(self) {
        if let Some(inner) = self {
            inner.let_go();
        }
    }
}

impl<T: LetGo> LetGo for Seq<T> {
    fn let_go(self) {
        let mut items = self.into_vec();
        while let Some(item) = items.pop() {
            item.let_go();
        }
        items.destroy_empty();
    }
}

impl<T: LetGo, U: LetGo> LetGo for (T, U) {
    fn let_go(self) {
        self.0.let_go();
        self.1.let_go();
    }
}

impl<T: LetGo, U: LetGo, V: LetGo> LetGo for (T, U, V) {
    fn let_go(self) {
        self.0.let_go();
        self.1.let_go();
        self.2.let_go();
    }
}
