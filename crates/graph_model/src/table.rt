//! A table as it is stored.
ghost use Rattle.std.specs.Prelude.{◌≡◌, ◌+◌, ◌<◌, ℤ, false, None, IsTrue, IfOk, OnOk, OnErr, [], ◌∷◌, ◌++◌, length, map, position, slice_index_or, sum_by, take};
ghost use Rattle.std.specs.List.{list_any};
ghost use Rattle.column_types.specs.Value.{fits_kind};
ghost use Rattle.column_types.specs.declared.kind.Kind.TheVariants as kind;
ghost use Rattle.key_places.specs.Places.{Puts, place_of};
ghost use Rattle.graph_model.specs.Seats.{Fit, live_seats, no_seat, sits, sits_at, key_at as key_in, seated, vacated, reset};
ghost use Rattle.graph_model.specs.Parts.{ArePartsOf, AreRanks};

use crate::Prop;
use crate::cells::{copy_row, make_flags, put_row};
use crate::parts::{TableParts, are_as_long, copied_parts};
use crate::places::ranks_of;
use column_types::{EditableColumn, List, NoMemory, Value};
use key_places::KeyPlaces;
use std::alloc::Global;
use std::marker::Model;

/// The most seats of a table, those of rows that were taken out among them.
const MOST_SEATS: usize = 2_147_483_647;

/// Rows in seats, an index of the keys that sit, and how many sit. Seen as the kinds of the properties and the seats.
#[derive(Drop)]
pub(crate) struct Table {
    keys: List<i64>,
    columns: List<EditableColumn>,
    dead: Vec<bool>,
    index: KeyPlaces,
    live: u32,
}

impl Model for Table {
    ghost use Rattle.graph_model.specs.Seats.{TableData, IsTable, kinds_of, seats_from};

    ghost Value = { TableData };

    ghost view = { λ t. record { kinds = kinds_of t.columns; seats = seats_from t.keys t.columns t.dead.items } };

    ghost invariant = { λ t. IsTable t.keys t.columns t.dead.items t.index t.live };
}

/// A column without values for each property.
fn empty_columns(alloc: Global, props: &[Prop]) -> Result<List<EditableColumn>, NoMemory>
    ensures { IfOk result (λ columns. columns ≡ map (λ p. record { kind = p.kind; values = [] }) props.now) }
{
    let mut columns = List::new(alloc);
    for prop in props {
        columns.push(EditableColumn::new(alloc, prop.kind))?;
    }
    Ok(columns)
}

/// Appends a key, and tells the index that it stands there.
fn add_key(keys: &mut List<i64>, index: &mut KeyPlaces, key: i64) -> Result<(), NoMemory>
    requires few { length keys.old < 4294967296 }
    ensures keys { OnOk result (keys.new ≡ keys.old ++ key ∷ []) }
    ensures told { OnOk result (Puts index.old index.new key (Some (length keys.old))) }
    ensures keys_stay { OnErr result (keys.new ≡ keys.old) }
    ensures index_stays { OnErr result ((k : ℤ) → place_of index.new k ≡ place_of index.old k) }
{
    let seat = keys.len() as u32;
    keys.push(key)?;
    let told = index.insert(key, seat);
    if told.is_err() {
        keys.remove(seat);
    }
    told
}

impl Table {
    /// A table without rows.
    pub(crate) fn new(alloc: Global, props: &[Prop]) -> Result<Table, NoMemory>
        ensures { IfOk result (λ t. t ≡ record { kinds = map (λ p. p.kind) props.now; seats = [] }) }
    {
        Ok(Table {
            keys: List::new(alloc),
            columns: empty_columns(alloc, props)?,
            dead: Vec::new(alloc),
            index: KeyPlaces::new(alloc),
            live: 0,
        })
    }

    /// How many rows sit.
    pub(crate) fn live(&self) -> u32
        ensures { result ≡ length (live_seats self.now.seats) }
    {
        self.live
    }

    /// How many values the rows have that sit.
    pub(crate) fn cells(&self) -> u32
        requires { sum_by (λ s. length s.values) (live_seats self.now.seats) < 4294967296 }
        ensures { result ≡ sum_by (λ s. length s.values) (live_seats self.now.seats) }
    {
        (self.live as usize * self.columns.len()) as u32
    }

    /// How many seats there are. The next row takes the one of this number.
    pub(crate) fn seats(&self) -> u32
        ensures { result ≡ length self.now.seats }
    {
        self.keys.len() as u32
    }

    pub(crate) fn has(&self, key: i64) -> bool
        ensures { result ≡ list_any (sits key) self.now.seats }
    {
        self.index.contains(key)
    }

    /// The seat where the key sits.
    pub(crate) fn seat_of(&self, key: i64) -> Option<u32>
        ensures { result ≡ position (sits key) self.now.seats }
    {
        self.index.get(key)
    }

    /// The key of the row that was put in a seat.
    pub(crate) fn key_at(&self, seat: u32) -> i64
        requires { seat < length self.now.seats }
        ensures { result ≡ key_in self.now.seats seat }
    {
        self.keys.as_slice()[seat as usize]
    }

    /// Whether the row that was put in a seat is still there.
    pub(crate) fn sits(&self, seat: u32) -> bool
        requires { seat < length self.now.seats }
        ensures { result ≡ sits_at self.now.seats seat }
    {
        match self.dead.get(seat as usize) {
            Some(dead) => !*dead,
            None => true,
        }
    }

    /// A copy of the values of the row that was put in a seat.
    pub(crate) fn values_at(&self, alloc: Global, seat: u32) -> Result<List<Value>, NoMemory>
        requires { seat < length self.now.seats }
        ensures { IfOk result (λ values. values ≡ (slice_index_or self.now.seats seat no_seat).values) }
    {
        copy_row(alloc, self.columns.as_slice(), seat)
    }

    /// How many rows before each seat are still there. The list is empty where all rows are.
    pub(crate) fn ranks(&self, alloc: Global) -> Result<List<i32>, NoMemory>
        ensures { IfOk result (AreRanks self.now.seats) }
    {
        if self.live as usize == self.keys.len() {
            return Ok(List::new(alloc));
        }
        ranks_of(alloc, self)
    }

    /// The rows that are still there, as keys, columns and an index. Nothing is copied where no row was ever taken out.
    pub(crate) fn into_parts(self, alloc: Global) -> Result<TableParts, NoMemory>
        ensures { IfOk result (ArePartsOf self) }
    {
        let Table {
            keys,
            columns,
            dead,
            index,
            live: _,
        } = self;
        if dead.is_empty() && are_as_long(columns.as_slice(), keys.len()) {
            return Ok(TableParts {
                keys,
                columns,
                places: index,
            });
        }
        drop(index);
        copied_parts(alloc, keys, columns, dead)
    }

    /// Puts a row in the next seat.
    pub(crate) fn push(&mut self, key: i64, values: List<Value>) -> Result<(), NoMemory>
        requires new { list_any (sits key) self.old.seats ≡ false }
        requires fit { Fit self.old.kinds values }
        ensures ok { OnOk result (self.new ≡ record { kinds = self.old.kinds; seats = seated self.old.seats key values }) }
        ensures err { OnErr result (self.new ≡ self.old) }
    {
        if MOST_SEATS <= self.keys.len() {
            return Err(NoMemory);
        }
        let seat = self.keys.len() as u32;
        put_row(&mut self.columns, seat, values)?;
        add_key(&mut self.keys, &mut self.index, key)?;
        self.live += 1;
        Ok(())
    }

    /// Takes the row out that sits in a seat.
    pub(crate) fn remove(&mut self, seat: u32) -> Result<(), NoMemory>
        requires { IsTrue (sits_at self.old.seats seat) }
        ensures ok { OnOk result (self.new ≡ record { kinds = self.old.kinds; seats = vacated self.old.seats seat }) }
        ensures err { OnErr result (self.new ≡ self.old) }
    {
        make_flags(&mut self.dead, seat)?;
        let key = self.keys.as_slice()[seat as usize];
        self.index.remove(key)?;
        self.dead[seat as usize] = true;
        self.live -= 1;
        Ok(())
    }

    /// Sets a value of the row in a seat.
    pub(crate) fn set(&mut self, seat: u32, prop: u32, value: Value) -> Result<(), NoMemory>
        requires seat { seat < length self.old.seats }
        requires prop { prop < length self.old.kinds }
        requires fits { IsTrue (fits_kind (slice_index_or self.old.kinds prop kind.Long) value) }
        ensures ok { OnOk result (self.new ≡ record { kinds = self.old.kinds; seats = reset self.old.seats seat prop value }) }
        ensures err { OnErr result (self.new ≡ self.old) }
    {
        self.columns.as_mut_slice()[prop as usize].set(seat, value)?;
        Ok(())
    }
}
