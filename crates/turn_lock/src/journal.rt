// What lies under the lock.
ghost use Rattle.std.specs.Prelude.{◌≡◌, ℕ, List, length};

/// A value that represents a list of entries, each of one client, and an origin.
///
/// The entries are those that clients have added, the oldest first. The origin is what no client changes, such as the schema and the rows that a database began with. Clients have numbers.
/// This meaning is this project's choice. It exists in contracts alone: the value itself may keep as much of it as it needs, or nothing but the length.
pub trait Journal {
    /// An entry of the list, as plain data.
    type Entry;
    /// What the value began as, as plain data.
    type Origin;

    // The entries of a value, the oldest first.
    ghost entries: { Self → List Self.Entry };

    // The client that an entry is of.
    ghost client: { Self.Entry → ℕ };

    // The origin of a value.
    ghost origin: { Self → Self.Origin };

    /// How many entries the list has.
    fn entries(&self) -> u64
        ensures { result ≡ length (entries self.now) };
}
