//! Tables.

ghost use Rattle.std.specs.Prelude.{◌≡◌, [], IfOk, IfSome, OnOk, option_to_list};
ghost use Rattle.vap_read_objects.specs.Blocks.{joined};
ghost use Rattle.vap_read_objects.specs.Tables.{AreInOrder, replaced};

use crate::blocks::{Block, add_shared, blocks_of, blocks_with};
use crate::entry::Entry;
use base_containers::Shared;
use std::alloc::{AllocError, Global};
use std::marker::Model;
use vap_read::Key;

/// Entries in the order of their keys, each of which occurs once. Contracts see the list of them.
#[derive(Drop)]
pub struct Table<T> {
    blocks: Vec<Block<T>>,
}

impl<T> Model for Table<T> {
    ghost use Rattle.std.specs.Prelude.{List};
    ghost use Rattle.vap_read.specs.contracts.key.Key as of_keys;
    ghost use Rattle.vap_read.specs.contracts.object.Object as of_objects;
    ghost use Rattle.vap_read_objects.specs.Blocks.{joined};
    ghost use Rattle.vap_read_objects.specs.Codes.{entries_code};
    ghost use Rattle.vap_read_objects.specs.Tables.{AreInOrder};
    ghost use Rattle.vap_read_objects.specs.declared.entry.Entry.{Entry as EntryOf};

    ghost Value = { List (EntryOf T) };

    ghost coded = { entries_code of_keys.the_row.coded of_objects.the_row.coded T.code };

    ghost view = { λ t. joined t.blocks.items };

    ghost invariant = { λ t. AreInOrder (joined t.blocks.items) };
}

impl<T> Table<T> {
    /// No entries.
    pub fn new(alloc: Global) -> Table<T>
        ensures { result ≡ [] }
    {
        Table {
            blocks: Vec::new(alloc),
        }
    }

    /// The entries, block by block.
    pub fn blocks(&self) -> &[Block<T>]
        ensures entries { joined result.now ≡ self.now }
        // As those of a table always are.
        ensures ordered { AreInOrder self.now }
    {
        self.blocks.as_slice()
    }
}

impl<T: Drop> Table<T> {
    /// The table of entries in order.
    pub fn from_entries(alloc: Global, entries: &[Shared<Entry<T>>]) -> Result<Table<T>, AllocError>
        requires { AreInOrder entries.now }
        ensures { IfOk result (λ table. table ≡ entries.now) }
    {
        Ok(Table {
            blocks: blocks_of(alloc, entries)?,
        })
    }

    /// An equal table: one more owner of each block.
    pub fn share(&self, alloc: Global) -> Result<Table<T>, AllocError>
        ensures { IfOk result (λ table. table ≡ self.now) }
    {
        let mut blocks = Vec::new(alloc);
        add_shared(self.blocks.as_slice(), &mut blocks)?;
        Ok(Table { blocks })
    }

    /// Puts an entry in place of the one of a key, or takes that away.
    pub fn set(
        &mut self,
        alloc: Global,
        key: &Key,
        entry: Option<Shared<Entry<T>>>,
    ) -> Result<(), AllocError>
        requires { IfSome entry (λ e. e.key ≡ key.now) }
        ensures set { OnOk result (self.new ≡ replaced key.now (option_to_list entry) self.old) }
        ensures before { AreInOrder self.old }
    {
        self.blocks = blocks_with(alloc, self.blocks.as_slice(), key, entry)?;
        Ok(())
    }
}
