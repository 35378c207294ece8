//! What a message dropped.
ghost use Rattle.std.specs.Prelude.{◌≡◌};

use crate::item::Item;
use maint_msg::KeyVersion;
use sealed_item::Content;
use sealed_item::list_prefix::Prefix;
use std::alloc::Global;
use std::marker::Model;
use tao_base::Key;

/// A list that was dropped, the version that it lacked, and how many of its edges were held.
#[derive(Clone, Copy, PartialEq, Eq)]
pub struct DroppedList {
    pub key: Key,
    pub version: u64,
    pub length: u64,
}

/// Lists that were dropped, in the order in which a message names them.
#[derive(Drop)]
pub struct DroppedLists {
    rows: Vec<DroppedList>,
}

impl Model for DroppedLists {
    ghost use Rattle.std.specs.Prelude.{List};
    ghost use Rattle.cache_items.specs.declared.delivered.DroppedList.{DroppedList};

    ghost Value = { List DroppedList };

    ghost view = { λ d. d.rows.items };
}

impl DroppedLists {
    ghost use Rattle.std.specs.Prelude.{[]};
    ghost use Rattle.cache_items.specs.Delivered.{AddsRow, content_row, row_of};

    pub(crate) fn none(alloc: Global) -> DroppedLists
        ensures { result ≡ [] }
    {
        DroppedLists {
            rows: Vec::new(alloc),
        }
    }

    /// Adds a row where the item is a list and there is memory for the row.
    pub(crate) fn add(&mut self, touched: &KeyVersion, item: &Option<Item>)
        ensures { AddsRow (row_of touched.now item.now) self.old self.new }
    {
        if let Some(item) = item {
            self.add_content(touched, &item.content);
        }
    }

    fn add_content(&mut self, touched: &KeyVersion, content: &Content)
        ensures { AddsRow (content_row touched.now content.now) self.old self.new }
    {
        if let Content::List(prefix) = content {
            self.add_list(touched, prefix);
        }
    }

    fn add_list(&mut self, touched: &KeyVersion, prefix: &Prefix)
        ensures { AddsRow (content_row touched.now (Content.List prefix.now)) self.old self.new }
    {
        let row = DroppedList {
            key: touched.key,
            version: touched.version,
            length: prefix.edges().len() as u64,
        };
        let _ = self.rows.push(row);
    }

    /// The rows, in the order in which the message names the lists.
    pub fn as_slice(&self) -> &[DroppedList]
        ensures { result.now ≡ self.now }
    {
        self.rows.as_slice()
    }
}

/// How many items a message dropped, and a row for each list among them for which there was memory.
#[derive(Drop)]
pub struct Delivered {
    pub dropped: u64,
    pub lists: DroppedLists,
}
