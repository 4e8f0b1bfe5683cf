// How each command is said.

// How the command of that word is said, if there is one.
pub fn usage(word: &str) -> Option<&'static str> {
    match word {
        "set" => Some(
            "set NAME image I cpu C memory M count N least L most X [tags T,T,..] [apart]",
        ),
        "end" => Some("end NAME"),
        "add" => Some("add M cpu C memory M [tags T,T,..]"),
        "close" => Some("close M"),
        "reopen" => Some("reopen M"),
        "forget" => Some("forget M"),
        "time" => Some("time T"),
        "show" => Some("show, or show NAME"),
        "report" => Some("report M"),
        "ready" => Some("ready T"),
        "dies" => Some("dies T"),
        "fall" => Some("fall M"),
        "lines" => Some("lines good, or lines bad"),
        "seed" => Some("seed S"),
        "deliver" => Some("deliver"),
        "letters" => Some("letters"),
        "hand" => Some("hand K"),
        "lose" => Some("lose K"),
        "double" => Some("double K"),
        "dark" => Some("dark N"),
        "stores" => Some("stores"),
        "rounds" => Some("rounds N MS"),
        "settle" => Some("settle MS"),
        "hex" => Some("hex on, or hex off"),
        "check" => Some("check"),
        _ => None,
    }
}
