use std::alloc::Global;
use std::test::Fail;
use vp_lex::{LexErr, TokenKind, tokens};

fn kind_name(kind: TokenKind) -> &'static str {
    match kind {
        TokenKind::Name => "name",
        TokenKind::Next => "next",
        TokenKind::Number => "number",
        TokenKind::Word => "word",
        TokenKind::Symbol => "symbol",
    }
}

// The tokens of a text, each as its kind and its bytes in brackets, or the place of the refused byte.
fn shown(alloc: Global, text: &str) -> Result<String, Fail> {
    let bytes = text.as_bytes();
    let mut line = String::new(alloc);
    if bytes.len() > 1_048_576 {
        line.push_str("too long")?;
        return Ok(line);
    }
    match tokens(alloc, bytes) {
        Ok(found) => {
            for token in found.iter() {
                let slice = bytes
                    .get(token.from as usize..token.to as usize)
                    .ok_or("no slice")?;
                line.push_str(kind_name(token.kind))?;
                line.push_str("[")?;
                line.push_str(str::from_utf8(slice).map_err(|_| "no text")?)?;
                line.push_str("]")?;
            }
        }
        Err(LexErr::Byte { at }) => write!(line, "byte {at}")?,
        Err(LexErr::Memory) => line.push_str("memory")?,
    }
    Ok(line)
}

#[test]
fn tokens_of_short_texts(rt: HostRuntime) -> Result<(), Fail> {
    for (text, expected) in [
        ("", ""),
        (" \t\r\n", ""),
        ("x", "name[x]"),
        ("x_1 Y", "name[x_1]name[Y]"),
        ("12x", "number[12]name[x]"),
        ("x@", "next[x@]"),
        ("x@y", "next[x@]name[y]"),
        ("0.5", "number[0.5]"),
        ("6/4", "number[6/4]"),
        ("007", "number[007]"),
        ("1.5.25", "byte 3"),
        ("+", "symbol[+]"),
        ("++", "symbol[++]"),
        ("+++", "symbol[++]symbol[+]"),
        ("+ +", "symbol[+]symbol[+]"),
        ("<", "symbol[<]"),
        ("<=", "symbol[<=]"),
        ("< =", "symbol[<]symbol[=]"),
        (">>=", "symbol[>]symbol[>=]"),
        ("=<=", "symbol[=]symbol[<=]"),
        (":=", "symbol[:=]"),
        ("!=!", "symbol[!=]symbol[!]"),
        (
            ";,()[]{}",
            "symbol[;]symbol[,]symbol[(]symbol[)]symbol[[]symbol[]]symbol[{]symbol[}]",
        ),
        (
            "-*^'?&|",
            "symbol[-]symbol[*]symbol[^]symbol[']symbol[?]symbol[&]symbol[|]",
        ),
        ("level' = f", "name[level]symbol[']symbol[=]name[f]"),
        ("# all to the end", ""),
        ("a#b\nc", "name[a]name[c]"),
        ("a#b\rc\nd", "name[a]name[d]"),
        ("a # é $ @\nb", "name[a]name[b]"),
    ] {
        assert_eq!(rt; shown(rt.alloc(), text)?.as_str(), expected, "of {text}");
    }
    Ok(())
}

#[test]
fn refused_bytes(rt: HostRuntime) -> Result<(), Fail> {
    for (text, expected) in [
        ("$", "byte 0"),
        ("x $ $", "byte 2"),
        ("tau@", "byte 3"),
        ("1.", "byte 1"),
        ("1/2/3", "byte 3"),
        ("1 / 2", "byte 2"),
        ("1/x", "byte 1"),
        ("x @", "byte 2"),
        ("x@@", "byte 2"),
        ("@x", "byte 0"),
        (":", "byte 0"),
        ("a : = b", "byte 2"),
        ("_x", "byte 0"),
        (".5", "byte 0"),
        ("# $\n$", "byte 4"),
        ("é", "byte 0"),
        ("\"x\"", "byte 0"),
    ] {
        assert_eq!(rt; shown(rt.alloc(), text)?.as_str(), expected, "of {text}");
    }
    Ok(())
}

#[test]
fn reserved_words(rt: HostRuntime) -> Result<(), Fail> {
    for word in [
        "package", "params", "states", "controls", "init", "inv", "safe", "ctrl", "time", "to",
        "flow", "slack", "from", "domain", "fallback", "cert", "step", "pos", "sum", "eq", "of",
        "times", "sq", "if", "else", "true", "false", "tau",
    ] {
        let line = shown(rt.alloc(), word)?;
        assert!(rt; line.starts_with("word["), "of {word}");
    }
    for name in [
        "Package", "packages", "stat", "tau_", "tau1", "iff", "i", "next", "plant",
    ] {
        let line = shown(rt.alloc(), name)?;
        assert!(rt; line.starts_with("name["), "of {name}");
    }
    Ok(())
}
