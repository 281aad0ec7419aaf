use rg_query::QueryFault;

/// Why the bytes of a plan were refused. The first of this order is answered.
#[derive(Clone, Copy, Debug, PartialEq, Eq, Hash)]
pub enum ConfigFault {
    /// They are no TOML document.
    Toml,
    /// The table `stream` describes no schema.
    Stream,
    /// The defaults of its columns can't be read, for this cause.
    Defaults(DefaultsFault),
    /// What stands beside the stream can't be read, for this cause.
    Settings(SettingsFault),
    /// The first query, counted from 0, that isn't taken, and why.
    Query(u32, QueryRefusal),
    /// Memory ran out.
    Memory,
}

/// Why the defaults of a stream's columns can't be read. The first of this order is answered.
#[derive(Clone, Copy, Debug, PartialEq, Eq, Hash)]
pub enum DefaultsFault {
    /// `defaults` is no table.
    Table,
    /// A key of it is the name of no column past the time.
    Key,
    /// That of the column with this number, where the time has number 0, is no string that says a value of its kind; no
    /// such column stands before it.
    Column(u32),
}

/// Why what stands beside the stream can't be read. The first of this order is answered.
#[derive(Clone, Copy, Debug, PartialEq, Eq, Hash)]
pub enum SettingsFault {
    /// A key at the top is none of `queries`, `stream` and `settings`.
    TopKey,
    /// `queries` is no array of strings, or has none.
    Queries,
    /// `settings` is no table.
    Table,
    /// A key of the settings isn't known.
    Key,
    /// `cache` is no whole number from 1 to 1,024.
    Cache,
    /// `chunk` is no whole number from 1 to 4,096.
    Chunk,
    /// `commit` is no whole number from 1 to 1,000,000.
    Commit,
    /// `save` is no whole number from 1 to 1,000,000.
    Save,
    /// `events` is no whole number from 1 to 2^40.
    Events,
    /// `header` is neither true nor false.
    Header,
    /// `grace` is no whole number from 0 to 10^15.
    Grace,
    /// `cache` chunks of `chunk` events are more than 65,536 events.
    CachedEvents,
}

/// Why a query of a plan isn't taken. The first of this order is answered.
#[derive(Clone, Copy, Debug, PartialEq, Eq, Hash)]
pub enum QueryRefusal {
    /// 64 queries stand before it.
    TooMany,
    /// Its text can't be read.
    Text(QueryFault),
    /// It has more than 16 aggregators.
    TooManyAggs,
    /// Its key has more than 8 columns.
    TooManyColumns,
}
