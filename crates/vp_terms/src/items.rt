//! Lists in public fields: contracts see them as lists of their items.
ghost use Rattle.std.specs.Prelude.{◌≡◌, map, string_bytes};

use std::marker::Model;

/// A list of items.
#[derive(Debug, Drop)]
pub struct Items<T> {
    items: Vec<T>,
}

impl<T> Model for Items<T> {
    ghost use Rattle.std.specs.Prelude.{List};
    ghost use Rattle.std.specs.Coded.{coded_list};

    ghost Value = { List T };

    ghost coded = { coded_list T.code };

    ghost view = { λ l. l.items.items };
}

impl<T> Items<T> {
    /// The list of a vector's items. It takes no memory.
    pub fn of(items: Vec<T>) -> Items<T>
        ensures { result ≡ items.items }
    {
        Items { items }
    }

    /// Lends the items.
    pub fn get(&self) -> &[T]
        ensures { result.now ≡ self.now }
    {
        self.items.as_slice()
    }
}

/// A list of names, which contracts see as a list of texts.
#[derive(Debug, Drop)]
pub struct NameList {
    names: Vec<String>,
}

impl Model for NameList {
    ghost use Rattle.std.specs.Prelude.{List, ℕ, map, string_bytes};

    ghost Value = { List (List ℕ) };

    ghost view = { λ n. map string_bytes n.names.items };
}

impl NameList {
    /// The list of a vector's names. It takes no memory.
    pub fn of(names: Vec<String>) -> NameList
        ensures { result ≡ map string_bytes names.items }
    {
        NameList { names }
    }

    /// Lends the names.
    pub fn get(&self) -> &[String]
        ensures { map string_bytes result.now ≡ self.now }
    {
        self.names.as_slice()
    }
}

/// A name as it stands in a text, which contracts see as its bytes.
#[derive(Debug, Drop)]
pub struct NameText {
    name: String,
}

impl Model for NameText {
    ghost use Rattle.std.specs.Prelude.{List, ℕ, string_bytes};

    ghost Value = { List ℕ };

    ghost view = { λ n. string_bytes n.name };
}

impl NameText {
    /// The name of a string. It takes no memory.
    pub fn of(name: String) -> NameText
        ensures { result ≡ string_bytes name }
    {
        NameText { name }
    }

    /// Lends the name.
    pub fn get(&self) -> &str
        ensures { result.now ≡ self.now }
    {
        self.name.as_str()
    }
}
