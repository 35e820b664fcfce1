//! Columns of values of one kind.
ghost use Rattle.std.specs.Prelude.{◌≡◌, ◌≢◌, ◌↔◌, ◌⊎◌, [], ◌∷◌, ◌++◌, ◌+◌, ◌<◌, length, map, Some, slice_get, slice_set, Contains, IsTrue, IfOk, OnOk, OnErr, IfSome, IsNone};
ghost use Rattle.column_types.specs.Value.{cell_value, fits_kind};
ghost use Rattle.column_types.specs.Column.{column_data};
ghost use Rattle.column_types.specs.declared.kind.Kind.TheVariants as kind;
ghost use Rattle.column_types.specs.declared.value.Value.TheVariants as value;

use crate::nullable::Nullable;
use crate::{Cell, Kind, List, NoMemory, Steps, Text, Value};
use std::alloc::Global;
use std::marker::Model;
use std::sync::ledger::Ledger;

/// The items of a column, a typed vector for each kind.
#[derive(Drop)]
enum Cells {
    Integers(Nullable<i32>),
    Longs(Nullable<i64>),
    Booleans(Nullable<bool>),
    Texts(Nullable<Text>),
    Dates(Nullable<i32>),
}

impl Cells {
    ghost use Rattle.column_types.specs.Column.{column_data};

    fn push(&mut self, alloc: Global, value: Value) -> Result<(), NoMemory>
        requires { IsTrue (fits_kind (column_data self.old).kind value) }
        ensures kind { (column_data self.new).kind ≡ (column_data self.old).kind }
        ensures ok { OnOk result ((column_data self.new).values ≡ (column_data self.old).values ++ value ∷ []) }
        ensures err { OnErr result (self.new ≡ self.old) }
    {
        match self {
            Cells::Integers(items) => match value {
                Value::Null => items.push_missing(0),
                Value::Integer(n) => items.push(n),
                _ => unreachable!(),
            },
            Cells::Longs(items) => match value {
                Value::Null => items.push_missing(0),
                Value::Long(n) => items.push(n),
                _ => unreachable!(),
            },
            Cells::Booleans(items) => match value {
                Value::Null => items.push_missing(false),
                Value::Boolean(b) => items.push(b),
                _ => unreachable!(),
            },
            Cells::Texts(items) => match value {
                Value::Null => items.push_missing(Text::new(alloc)),
                Value::Text(t) => items.push(t),
                _ => unreachable!(),
            },
            Cells::Dates(items) => match value {
                Value::Null => items.push_missing(0),
                Value::Date(d) => items.push(d),
                _ => unreachable!(),
            },
        }
    }
}

#[tactic(auto, using(crate::proofs::Entries::values_steps))]
impl Cells {
    ghost use Rattle.column_types.specs.Column.{column_data};

    fn set(&mut self, alloc: Global, row: usize, value: Value) -> Result<(), NoMemory>
        requires kind { IsTrue (fits_kind (column_data self.old).kind value) }
        requires row { row < length (column_data self.old).values }
        ensures kind { (column_data self.new).kind ≡ (column_data self.old).kind }
        ensures ok { OnOk result ((column_data self.new).values ≡ slice_set (column_data self.old).values row value) }
        ensures err { OnErr result (column_data self.new ≡ column_data self.old) }
    {
        match self {
            Cells::Integers(items) => match value {
                Value::Null => items.set_missing(row, 0),
                Value::Integer(n) => {
                    items.set(row, n);
                    Ok(())
                }
                _ => unreachable!(),
            },
            Cells::Longs(items) => match value {
                Value::Null => items.set_missing(row, 0),
                Value::Long(n) => {
                    items.set(row, n);
                    Ok(())
                }
                _ => unreachable!(),
            },
            Cells::Booleans(items) => match value {
                Value::Null => items.set_missing(row, false),
                Value::Boolean(b) => {
                    items.set(row, b);
                    Ok(())
                }
                _ => unreachable!(),
            },
            Cells::Texts(items) => match value {
                Value::Null => items.set_missing(row, Text::new(alloc)),
                Value::Text(t) => {
                    items.set(row, t);
                    Ok(())
                }
                _ => unreachable!(),
            },
            Cells::Dates(items) => match value {
                Value::Null => items.set_missing(row, 0),
                Value::Date(d) => {
                    items.set(row, d);
                    Ok(())
                }
                _ => unreachable!(),
            },
        }
    }
}

/// Values of one kind, some of them NULL, that never change. Seen as the kind and the list of the values.
#[derive(Drop)]
pub struct Column {
    cells: Cells,
}

impl Model for Column {
    ghost use Rattle.std.specs.Prelude.{◌<◌, ◌^◌, length, IsTrue};
    ghost use Rattle.std.specs.List.{list_all};
    ghost use Rattle.column_types.specs.Value.{fits_kind};
    ghost use Rattle.column_types.specs.Column.{ColumnData, column_data};

    ghost Value = { ColumnData };

    ghost view = { λ c. column_data c.cells };

    ghost invariant = { λ c. (length (column_data c.cells).values < 2 ^ 32)
        × IsTrue (list_all (fits_kind (column_data c.cells).kind) (column_data c.cells).values) };
}

impl Column {
    ghost use Rattle.column_types.specs.Column.{IsColumn};

    pub fn kind(&self) -> Kind
        ensures { result ≡ self.now.kind }
    {
        match &self.cells {
            Cells::Integers(_) => Kind::Integer,
            Cells::Longs(_) => Kind::Long,
            Cells::Booleans(_) => Kind::Boolean,
            Cells::Texts(_) => Kind::Text,
            Cells::Dates(_) => Kind::Date,
        }
    }

    /// The number of values. Each is NULL or of the column's kind.
    pub fn len(&self) -> u32
        ensures rows { result ≡ length self.now.values }
        ensures column { IsColumn self.now }
    {
        match &self.cells {
            Cells::Integers(items) => items.len() as u32,
            Cells::Longs(items) => items.len() as u32,
            Cells::Booleans(items) => items.len() as u32,
            Cells::Texts(items) => items.len() as u32,
            Cells::Dates(items) => items.len() as u32,
        }
    }

    pub fn is_empty(&self) -> bool
        ensures { IsTrue result ↔ (self.now.values ≡ []) }
    {
        self.len() == 0
    }

    /// The value in a row, counted from 0, lent in constant time.
    pub fn get(&self, row: u32) -> Cell<'_>
        requires { row < length self.now.values }
        ensures { slice_get self.now.values row ≡ Some (cell_value result) }
    {
        let row = row as usize;
        match &self.cells {
            Cells::Integers(items) => items.get(row).map_or(Cell::Null, |n| Cell::Integer(*n)),
            Cells::Longs(items) => items.get(row).map_or(Cell::Null, |n| Cell::Long(*n)),
            Cells::Booleans(items) => items.get(row).map_or(Cell::Null, |b| Cell::Boolean(*b)),
            Cells::Texts(items) => items
                .get(row)
                .map_or(Cell::Null, |t| Cell::Text(t.as_str())),
            Cells::Dates(items) => items.get(row).map_or(Cell::Null, |d| Cell::Date(*d)),
        }
    }

    /// The values as they lie in memory, where they are LONGs and none of them is NULL.
    pub fn longs(&self) -> Option<&[i64]>
        ensures some { IfSome result (λ longs. self.now ≡ record { kind = kind.Long; values = map value.Long longs.now }) }
        ensures none { IsNone result → (self.now.kind ≢ kind.Long) ⊎ Contains self.now.values value.Null }
    {
        match &self.cells {
            Cells::Longs(items) => items.whole(),
            _ => None,
        }
    }

    /// The values as they lie in memory, where they are INTEGERs and none of them is NULL.
    pub fn integers(&self) -> Option<&[i32]>
        ensures some { IfSome result (λ integers. self.now ≡ record { kind = kind.Integer; values = map value.Integer integers.now }) }
        ensures none { IsNone result → (self.now.kind ≢ kind.Integer) ⊎ Contains self.now.values value.Null }
    {
        match &self.cells {
            Cells::Integers(items) => items.whole(),
            _ => None,
        }
    }

    fn push(&mut self, alloc: Global, value: Value) -> Result<(), NoMemory>
        requires kind { IsTrue (fits_kind self.old.kind value) }
        requires room { length self.old.values < 4294967295 }
        ensures kind { self.new.kind ≡ self.old.kind }
        ensures ok { OnOk result (self.new.values ≡ self.old.values ++ value ∷ []) }
        ensures err { OnErr result (self.new ≡ self.old) }
    {
        self.cells.push(alloc, value)
    }

    fn set(&mut self, alloc: Global, row: u32, value: Value) -> Result<(), NoMemory>
        requires kind { IsTrue (fits_kind self.old.kind value) }
        requires row { row < length self.old.values }
        ensures kind { self.new.kind ≡ self.old.kind }
        ensures ok { OnOk result (self.new.values ≡ slice_set self.old.values row value) }
        ensures err { OnErr result (self.new ≡ self.old) }
    {
        self.cells.set(alloc, row as usize, value)
    }
}

/// The cells of a column without values.
fn no_cells(alloc: Global, kind: Kind) -> Cells
    ensures { column_data result ≡ record { kind = kind; values = [] } }
{
    match kind {
        Kind::Integer => Cells::Integers(Nullable::new(alloc)),
        Kind::Long => Cells::Longs(Nullable::new(alloc)),
        Kind::Boolean => Cells::Booleans(Nullable::new(alloc)),
        Kind::Text => Cells::Texts(Nullable::new(alloc)),
        Kind::Date => Cells::Dates(Nullable::new(alloc)),
    }
}

/// A column of LONGs. It takes no memory, and nothing is copied.
fn long_column(alloc: Global, longs: List<i64>) -> Column
    requires { length longs < 4294967296 }
    ensures { result ≡ record { kind = kind.Long; values = map value.Long longs } }
{
    let items = Nullable::of_items(alloc, longs.into_vec());
    Column {
        cells: Cells::Longs(items),
    }
}

/// A column of INTEGERs. It takes no memory, and nothing is copied.
fn integer_column(alloc: Global, integers: List<i32>) -> Column
    requires { length integers < 4294967296 }
    ensures { result ≡ record { kind = kind.Integer; values = map value.Integer integers } }
{
    let items = Nullable::of_items(alloc, integers.into_vec());
    Column {
        cells: Cells::Integers(items),
    }
}

/// A column that can still be changed, seen as the column that it holds. It becomes a [`Column`] by `finish`, which copies
/// nothing and counts a step for each value: no column comes to be without them.
#[derive(Drop)]
pub struct EditableColumn {
    alloc: Global,
    column: Column,
}

impl Model for EditableColumn {
    ghost use Rattle.column_types.specs.Column.{ColumnData};

    ghost Value = { ColumnData };

    ghost view = { λ e. e.column };
}

impl EditableColumn {
    ghost use Rattle.column_types.specs.Column.{IsColumn};

    /// A column without values. It takes no memory.
    pub fn new(alloc: Global, kind: Kind) -> EditableColumn
        ensures { result ≡ record { kind = kind; values = [] } }
    {
        EditableColumn {
            alloc,
            column: Column {
                cells: no_cells(alloc, kind),
            },
        }
    }

    /// The column of these LONGs. It takes no memory, and nothing is copied.
    pub fn of_longs(alloc: Global, longs: List<i64>) -> EditableColumn
        requires { length longs < 4294967296 }
        ensures { result ≡ record { kind = kind.Long; values = map value.Long longs } }
    {
        EditableColumn {
            alloc,
            column: long_column(alloc, longs),
        }
    }

    /// The column of these INTEGERs. It takes no memory, and nothing is copied.
    pub fn of_integers(alloc: Global, integers: List<i32>) -> EditableColumn
        requires { length integers < 4294967296 }
        ensures { result ≡ record { kind = kind.Integer; values = map value.Integer integers } }
    {
        EditableColumn {
            alloc,
            column: integer_column(alloc, integers),
        }
    }

    pub fn kind(&self) -> Kind
        ensures { result ≡ self.now.kind }
    {
        self.column.kind()
    }

    /// The number of values. Each is NULL or of the column's kind.
    pub fn len(&self) -> u32
        ensures rows { result ≡ length self.now.values }
        ensures column { IsColumn self.now }
    {
        self.column.len()
    }

    pub fn is_empty(&self) -> bool
        ensures { IsTrue result ↔ (self.now.values ≡ []) }
    {
        self.column.is_empty()
    }

    /// The value in a row, counted from 0, lent in constant time.
    pub fn get(&self, row: u32) -> Cell<'_>
        requires { row < length self.now.values }
        ensures { slice_get self.now.values row ≡ Some (cell_value result) }
    {
        self.column.get(row)
    }

    /// Appends one value. After an error the value is dropped and the column is as before.
    pub fn push(&mut self, value: Value) -> Result<(), NoMemory>
        requires kind { IsTrue (fits_kind self.old.kind value) }
        requires room { length self.old.values < 4294967295 }
        ensures kind { self.new.kind ≡ self.old.kind }
        ensures ok { OnOk result (self.new.values ≡ self.old.values ++ value ∷ []) }
        ensures err { OnErr result (self.new ≡ self.old) }
    {
        let alloc = self.alloc;
        self.column.push(alloc, value)
    }

    /// Puts another value in a row. It may take memory for a NULL alone. After an error the value is dropped and the column is as
    /// before.
    pub fn set(&mut self, row: u32, value: Value) -> Result<(), NoMemory>
        requires kind { IsTrue (fits_kind self.old.kind value) }
        requires row { row < length self.old.values }
        ensures kind { self.new.kind ≡ self.old.kind }
        ensures ok { OnOk result (self.new.values ≡ slice_set self.old.values row value) }
        ensures err { OnErr result (self.new ≡ self.old) }
    {
        let alloc = self.alloc;
        self.column.set(alloc, row, value)
    }

    /// The column of these values, for one step each. It takes no memory, and nothing is copied.
    pub fn finish<L: Ledger>(self, steps: &mut Steps<L>) -> Column
        ensures column { result ≡ self }
        ensures counted { steps.new ≡ steps.old + length self.values }
    {
        let EditableColumn { alloc: _, column } = self;
        steps.tick_each(column.len());
        column
    }
}

/// A column that still grows, seen as the column that `finish` gives.
#[derive(Drop)]
pub struct ColumnBuilder {
    alloc: Global,
    column: Column,
}

impl Model for ColumnBuilder {
    ghost use Rattle.column_types.specs.Column.{ColumnData};

    ghost Value = { ColumnData };

    ghost view = { λ b. b.column };
}

impl ColumnBuilder {
    /// A column without values.
    pub fn new(alloc: Global, kind: Kind) -> Result<ColumnBuilder, NoMemory>
        ensures kind { IfOk result (λ b. b.kind ≡ kind) }
        ensures values { IfOk result (λ b. b.values ≡ []) }
    {
        let cells = no_cells(alloc, kind);
        Ok(ColumnBuilder {
            alloc,
            column: Column { cells },
        })
    }

    /// Appends one value, for one step. After an error the value is dropped and the column is as before.
    pub fn push<L: Ledger>(&mut self, value: Value, steps: &mut Steps<L>) -> Result<(), NoMemory>
        requires kind { IsTrue (fits_kind self.old.kind value) }
        requires room { length self.old.values < 4294967295 }
        ensures kind { self.new.kind ≡ self.old.kind }
        ensures ok { OnOk result (self.new.values ≡ self.old.values ++ value ∷ []) }
        ensures err { OnErr result (self.new ≡ self.old) }
        ensures counted { steps.new ≡ steps.old + 1 }
    {
        steps.tick();
        let alloc = self.alloc;
        self.column.push(alloc, value)
    }

    /// The column of all values pushed. It takes no memory.
    pub fn finish(self) -> Column
        ensures { result ≡ self }
    {
        let ColumnBuilder { alloc: _, column } = self;
        column
    }
}
