// Lines that `small_airline::script_of` reads.

/// The forecast of the alternate falls below minima, and rises again.
pub const AFTERNOON: &str =
    r#"F1 4 17:36 "do":"admit","text":"TAF AMD KPHL 121735Z 1218/1324 24010KT 1SM BR OVC004"
D1 4 17:37 "do":"alerts"
F1 5 17:50 "do":"admit","text":"TAF AMD KPHL 121748Z 1218/1324 24010KT P6SM BKN030"
"#;

/// The same, and then the release is cancelled.
pub const CANCELLED: &str =
    r#"F1 4 17:36 "do":"admit","text":"TAF AMD KPHL 121735Z 1218/1324 24010KT 1SM BR OVC004"
D1 4 17:37 "do":"alerts"
F1 5 17:50 "do":"admit","text":"TAF AMD KPHL 121748Z 1218/1324 24010KT P6SM BKN030"
D1 5 17:51 "do":"cancel","release":1
"#;

/// A domestic flight stops for more than an hour (14 CFR 121.593).
pub const STOPPED: &str =
    r#"F1 1 17:25 "do":"admit","text":"TAF KBOS 121720Z 1218/1324 24010KT P6SM SCT040"
F1 2 17:25 "do":"admit","text":"TAF KJFK 121720Z 1218/1324 24010KT P6SM BKN030"
F1 3 17:25 "do":"admit","text":"TAF KPHL 121720Z 1218/1324 24010KT P6SM BKN030"
D1 1 17:30 "do":"draft","plan":{"captain":"C7","flight":"DK101","kind":"domestic","legs":[{"alternates":[{"fuel":3000,"minutes":35,"station":"KPHL"}],"burn":12000,"eta":"2025-03-12T19:00Z","etd":"2025-03-12T18:00Z","extra":0,"from":"KBOS","minimum":19500,"minutes":55,"onboard":20000,"takeoff_alternate":null,"to":"KJFK"},{"alternates":[{"fuel":3000,"minutes":45,"station":"KBOS"}],"burn":5000,"eta":"2025-03-12T20:40Z","etd":"2025-03-12T19:50Z","extra":0,"from":"KJFK","minimum":12500,"minutes":45,"onboard":13000,"takeoff_alternate":null,"to":"KPHL"}],"tail":"N801DK"}
D1 2 17:30 "do":"prepare","release":1
D1 3 17:31 "digest":"53f0a8845d563ad4804b8585eb6e0dfbc7e0112d8b80710d5b57ce2c2d57aea1","do":"sign","release":1,"revision":1
C7 1 17:32 "digest":"53f0a8845d563ad4804b8585eb6e0dfbc7e0112d8b80710d5b57ce2c2d57aea1","do":"concur","release":1,"revision":1
C7 2 18:02 "do":"depart","leg":1,"release":1
C7 3 19:00 "do":"arrive","leg":1,"release":1
D1 0 20:00 "do":"alerts"
D1 0 20:01 "do":"alerts"
"#;

/// An alert opens in flight, changes, is acknowledged, and goes by an amendment; another opens, changes as the flight
/// is late, and goes as it arrives.
pub const WATCHED: &str = r#"C7 2 18:02 "do":"depart","leg":1,"release":1
F1 4 18:24 "do":"admit","text":"TAF AMD KPHL 121822Z 1218/1324 24010KT 1SM BR OVC004"
F1 5 18:36 "do":"admit","text":"TAF AMD KPHL 121835Z 1219/1324 24010KT P6SM BKN030"
D1 4 18:38 "do":"acknowledge","release":1,"version":2
D1 5 18:40 "do":"amend","plan":{"captain":"C7","flight":"DK101","kind":"domestic","legs":[{"alternates":[{"fuel":4000,"minutes":50,"station":"KBOS"}],"burn":6000,"eta":"2025-03-12T19:00Z","etd":"2025-03-12T18:00Z","extra":0,"from":"KBOS","minimum":14500,"minutes":30,"onboard":15000,"takeoff_alternate":null,"to":"KJFK"}],"tail":"N801DK"},"release":1
D1 6 18:41 "do":"prepare","release":1
D1 7 18:42 "digest":"1c664223b7066533e4efa3fd9775ebb2daa92a3ca9c96faffa6f120bea48e18c","do":"sign","release":1,"revision":2
C7 3 18:43 "digest":"1c664223b7066533e4efa3fd9775ebb2daa92a3ca9c96faffa6f120bea48e18c","do":"concur","release":1,"revision":2
F1 6 18:50 "do":"admit","text":"TAF AMD KBOS 121848Z 1219/1324 24010KT 1SM BR OVC004"
D1 0 19:29 "do":"alerts"
D1 0 19:30 "do":"alerts"
D1 0 19:31 "do":"alerts"
C7 4 19:32 "do":"arrive","leg":1,"release":1
"#;
