//! Texts, lists, files and reserved bytes as fields of public structs. Contracts see what they hold.
ghost use Rattle.std.specs.Prelude.{◌≡◌, ◌+◌, ◌≤◌, ◌++◌, length, string_bytes, vec_capacity, map};
ghost use Rattle.vp_outside.specs.Files.{file_of};

use std::marker::Model;

/// A text.
#[derive(Debug, Drop)]
pub struct Text {
    text: String,
}

impl Model for Text {
    ghost use Rattle.std.specs.Prelude.{List, ℕ, string_bytes};

    ghost Value = { List ℕ };

    ghost view = { λ t. string_bytes t.text };
}

impl Text {
    /// The text of a string.
    pub fn of(text: String) -> Text
        ensures { result ≡ string_bytes text }
    {
        Text { text }
    }

    /// Lends the text.
    pub fn get(&self) -> &str
        ensures { result.now ≡ self.now }
    {
        self.text.as_str()
    }
}

/// A list of plain values.
#[derive(Debug, Drop)]
pub struct Listed<T> {
    items: Vec<T>,
}

impl<T> Model for Listed<T> {
    ghost use Rattle.std.specs.Prelude.{List};
    ghost use Rattle.std.specs.Coded.{coded_list};

    ghost Value = { List T };

    ghost coded = { coded_list T.code };

    ghost view = { λ l. l.items.items };
}

impl<T> Listed<T> {
    /// The list of a vector's items.
    pub fn of(items: Vec<T>) -> Listed<T>
        ensures { result ≡ items.items }
    {
        Listed { items }
    }

    /// Lends the items.
    pub fn get(&self) -> &[T]
        ensures { result.now ≡ self.now }
    {
        self.items.as_slice()
    }
}

/// Named files, in order.
#[derive(Debug, Drop)]
pub struct Files {
    files: Vec<(String, Vec<u8>)>,
}

impl Model for Files {
    ghost use Rattle.std.specs.Prelude.{List, ℕ, map};
    ghost use Rattle.vp_outside.specs.Files.{file_of};

    ghost Value = { List (List ℕ × List ℕ) };

    ghost view = { λ f. map file_of f.files.items };
}

impl Files {
    /// The files of a vector of names and contents.
    pub fn of(files: Vec<(String, Vec<u8>)>) -> Files
        ensures { result ≡ map file_of files.items }
    {
        Files { files }
    }

    /// Lends the names and contents.
    pub fn get(&self) -> &[(String, Vec<u8>)]
        ensures { map file_of result.now ≡ self.now }
    {
        self.files.as_slice()
    }
}

/// Bytes, and the room that was taken for them: up to its capacity they grow without memory.
#[derive(Debug, Drop)]
pub struct Reserved {
    bytes: Vec<u8>,
}

impl Model for Reserved {
    ghost use Rattle.std.specs.Prelude.{vec_capacity};
    ghost use Rattle.vp_outside.specs.Room.{Room};

    ghost Value = { Room };

    ghost view = { λ r. record { items = r.bytes.items; capacity = vec_capacity r.bytes } };
}

impl Reserved {
    /// The bytes of a vector, with the vector's capacity.
    pub fn of(bytes: Vec<u8>) -> Reserved
        ensures { result ≡ record { items = bytes.items; capacity = vec_capacity bytes } }
    {
        Reserved { bytes }
    }

    /// Lends the bytes.
    pub fn get(&self) -> &[u8]
        ensures { result.now ≡ self.now.items }
    {
        self.bytes.as_slice()
    }

    /// Appends bytes, for which there is room.
    pub fn append(&mut self, piece: &[u8])
        requires { length self.old.items + length piece.now ≤ self.old.capacity }
        ensures items { self.new.items ≡ self.old.items ++ piece.now }
        ensures capacity { self.old.capacity ≤ self.new.capacity }
    {
        match self.bytes.extend_from_slice(piece) {
            Ok(()) => {}
            Err(_) => unreachable!(),
        }
    }
}
