//! Texts of cases without sessions.

/// The doctor prescribes and signs; the nurse gives, or doubts the prescription, so that it is signed again.
pub const HOSPITAL: &str =
    r#"{"graph":{"events":[{"name":"pm"},{"name":"s"},{"name":"gm"},{"name":"dt"}],"relations":[["condition","pm","s"],["condition","s","gm"],["condition","s","dt"],["response","pm","s"],["response","pm","gm"],["response","dt","s"],["exclude","dt","gm"],["include","s","gm"]]},"cover":[{"site":"doctor","events":["pm","s"]},{"site":"nurse","events":["gm","dt"]}]}"#;

/// The case of the doctor and the nurse, in which two events ask for a role, and of two sessions the first is a doctor's.
pub const GUARDED: &str =
    r#"{"version":"3","graph":{"events":[{"name":"pm","roles":["doc"]},{"name":"s"},{"name":"gm","roles":["nur"]},{"name":"dt"}],"relations":[["condition","pm","s"],["condition","s","gm"],["condition","s","dt"],["response","pm","s"],["response","pm","gm"],["response","dt","s"],["exclude","dt","gm"],["include","s","gm"]]},"cover":[{"site":"doctor","events":["pm","s"]},{"site":"nurse","events":["gm","dt"]}],"users":[{"user":"ann","roles":["doc"]}],"by":["ann"]}"#;

/// What the report of the hospital's row has behind the lines of the case.
#[cfg(test)]
pub(crate) const HOSPITAL_REPORT: &str = "open executed - pending - included pm,s,gm,dt
0 0 0 exec doctor pm done
1 0 1 exec nurse gm condition s
2 0 2 exec doctor s done
3 0 3 exec nurse dt done
4 0 4 accepting waits s
5 0 5 exec nurse gm excluded
6 0 6 exec doctor s done
7 0 7 exec nurse gm done
8 0 8 accepting yes
site doctor executed pm,s pending - included pm,s
site nurse executed s,gm,dt pending - included s,gm,dt
verdict accepting
end 9
";

/// The calls of the hospital's row by session 0, and what each is told.
pub const HOSPITAL_STEPS: [(usize, &str, &str); 9] = [
    (0, "exec doctor pm", "0 0 0 exec doctor pm done"),
    (0, "exec nurse gm", "1 0 1 exec nurse gm condition s"),
    (0, "exec doctor s", "2 0 2 exec doctor s done"),
    (0, "exec nurse dt", "3 0 3 exec nurse dt done"),
    (0, "accepting", "4 0 4 accepting waits s"),
    (0, "exec nurse gm", "5 0 5 exec nurse gm excluded"),
    (0, "exec doctor s", "6 0 6 exec doctor s done"),
    (0, "exec nurse gm", "7 0 7 exec nurse gm done"),
    (0, "accepting", "8 0 8 accepting yes"),
];

/// One atom and one site.
pub const NO_SESSION: &str =
    r#"{"graph":{"events":[{"name":"a"}]},"cover":[{"site":"x","events":["a"]}]}"#;

/// The sites x and y own e, and z owns f.
#[cfg(test)]
pub(crate) const SHARED_EVENT: &str =
    r#"{"graph":{"events":[{"name":"e"},{"name":"f"}]},"cover":[{"site":"x","events":["e"]},{"site":"y","events":["e"]},{"site":"z","events":["f"]}]}"#;

/// Of three sites each owns an atom of its own.
#[cfg(test)]
pub(crate) const THREE_SITES: &str =
    r#"{"graph":{"events":[{"name":"a"},{"name":"b"},{"name":"c"}]},"cover":[{"site":"A","events":["a"]},{"site":"B","events":["b"]},{"site":"C","events":["c"]}]}"#;

/// Of two sites each owns an atom of its own.
pub const TWO_SITES: &str =
    r#"{"graph":{"events":[{"name":"a"},{"name":"b"}]},"cover":[{"site":"A","events":["a"]},{"site":"B","events":["b"]}]}"#;
