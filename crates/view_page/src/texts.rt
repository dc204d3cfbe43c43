ghost use Rattle.std.specs.Prelude.{◌≡◌, ◌++◌, OnOk};
ghost use Rattle.view_page.specs.Texts.{base_style, body_start, dark_colours, graph_style};
ghost use Rattle.view_page.specs.Texts.{heat_style, key_style};
ghost use Rattle.view_page.specs.Texts.{lane_style, light_colours, matrix_style, page_end};
ghost use Rattle.view_page.specs.Texts.{page_start, shape_style, slack_style, table_style};

use markup::push_fixed;
use std::alloc::AllocError;

/// Appends how a page begins.
pub(crate) fn push_page_start(bytes: &mut Vec<u8>) -> Result<(), AllocError>
    ensures { OnOk result (bytes.new.items ≡ bytes.old.items ++ page_start) }
{
    push_fixed(
        bytes,
        "<!DOCTYPE html><html lang=\"en\"><head><meta charset=\"utf-8\"><meta name=\"viewport\" content=\"width=device-width, initial-scale=1\"><meta http-equiv=\"Content-Security-Policy\" content=\"default-src 'none'; style-src 'unsafe-inline'\"><title>Where the time of loads goes</title><style>",
    )
}

/// Appends the colours of a page.
pub(crate) fn push_light_colours(bytes: &mut Vec<u8>) -> Result<(), AllocError>
    ensures { OnOk result (bytes.new.items ≡ bytes.old.items ++ light_colours) }
{
    push_fixed(
        bytes,
        ":root{--bg:#fff;--fg:#1b1f24;--dim:#5b6570;--line:#d9dee3;--path:#c8500a;--path2:#e8975f;--onpath:#fff;--off:#7896b4;--slk:#c3d8ea;--gain:#0a2540;--half:#fff;--wait:#8a929a;--waitbg:#f1f2f4;--head:#f6f7f9}",
    )
}

/// Appends the colours of a page in the dark.
pub(crate) fn push_dark_colours(bytes: &mut Vec<u8>) -> Result<(), AllocError>
    ensures { OnOk result (bytes.new.items ≡ bytes.old.items ++ dark_colours) }
{
    push_fixed(
        bytes,
        "@media(prefers-color-scheme:dark){:root{--bg:#14171a;--fg:#e4e7ea;--dim:#9aa4ae;--line:#343b42;--path:#f08b45;--path2:#b8743f;--onpath:#1a0d02;--off:#4d6a86;--slk:#26394b;--gain:#1f5c96;--half:#fff;--wait:#7d8790;--waitbg:#22272c;--head:#1c2126}}",
    )
}

/// Appends how a page is set.
pub(crate) fn push_base_style(bytes: &mut Vec<u8>) -> Result<(), AllocError>
    ensures { OnOk result (bytes.new.items ≡ bytes.old.items ++ base_style) }
{
    push_fixed(
        bytes,
        "*{box-sizing:border-box}body{margin:0 auto;max-width:1560px;padding:0 20px 60px;background:var(--bg);color:var(--fg);font:14px/1.4 system-ui,\"Noto Sans\",\"DejaVu Sans\",sans-serif}h1{font-size:20px;margin:14px 0 6px}h2{font-size:17px;margin:0 0 6px;padding-top:10px}section{border-top:1px solid var(--line);margin-top:22px}figure{margin:6px 0}figcaption,.note{color:var(--dim);font-size:12px}dl{display:flex;flex-wrap:wrap;gap:6px 28px;margin:4px 0}dt{color:var(--dim);font-size:12px}dd{margin:0;font-size:18px;font-variant-numeric:tabular-nums}.refused{border-left:4px solid var(--path);padding:2px 8px;margin:6px 0}",
    )
}

/// Appends how shapes are drawn.
pub(crate) fn push_shape_style(bytes: &mut Vec<u8>) -> Result<(), AllocError>
    ensures { OnOk result (bytes.new.items ≡ bytes.old.items ++ shape_style) }
{
    push_fixed(
        bytes,
        "svg{display:block;overflow:hidden}svg text{font-size:11px;fill:var(--fg);white-space:pre}svg.axis{overflow:visible}.strip{border-radius:3px}.path{fill:var(--path)}.path2{fill:var(--path2);opacity:.6}.off{fill:var(--off)}.gain{fill:var(--gain)}.wait{fill:url(#hatch)}.hbg{fill:var(--waitbg)}.hl{stroke:var(--wait);stroke-width:1.6}.slk{fill:var(--slk)}.half{stroke:var(--half);stroke-width:2}.strip rect{stroke:var(--bg);stroke-width:1;paint-order:stroke}text.in{fill:var(--onpath)}.axis text{text-anchor:middle;fill:var(--dim)}.axis text.first{text-anchor:start}.g rect.path{stroke:var(--path);stroke-width:.8}.g rect.off{stroke:var(--off);stroke-width:.8}",
    )
}

/// Appends how tables are set.
pub(crate) fn push_table_style(bytes: &mut Vec<u8>) -> Result<(), AllocError>
    ensures { OnOk result (bytes.new.items ≡ bytes.old.items ++ table_style) }
{
    push_fixed(
        bytes,
        "table{border-collapse:collapse;width:100%}td,th{padding:2px 6px;text-align:right;font-variant-numeric:tabular-nums;white-space:nowrap;font-weight:400}th{color:var(--dim);font-size:12px;vertical-align:bottom}td.n,th.n{text-align:left;width:34%;max-width:0;overflow:hidden;text-overflow:ellipsis;white-space:pre}td.b,th.b{width:99%;text-align:left;padding:2px 0}.ev{color:var(--dim);font-size:12px}tr.rest td{color:var(--dim)}tbody tr:hover{background:var(--head)}.others{columns:2;font-size:12px}.scroll{overflow:auto;max-height:900px}",
    )
}

/// Appends how keys are drawn.
pub(crate) fn push_key_style(bytes: &mut Vec<u8>) -> Result<(), AllocError>
    ensures { OnOk result (bytes.new.items ≡ bytes.old.items ++ key_style) }
{
    push_fixed(
        bytes,
        ".key{color:var(--dim);font-size:12px;margin:4px 0}.k{display:inline-block;width:18px;height:10px;margin:0 5px 0 12px;vertical-align:-1px}.k.path{background:var(--path)}.k.off{background:var(--off)}.k.gain,.k.half{background:var(--gain);border-top:2px solid var(--path);border-bottom:2px solid var(--path)}.k.half{width:14px;background:linear-gradient(90deg,var(--gain) 6px,var(--half) 6px 8px,var(--gain) 8px)}.k.slk{background:var(--slk);height:6px}.k.wait{background:repeating-linear-gradient(45deg,var(--wait) 0 1.5px,var(--waitbg) 1.5px 4px)}",
    )
}

/// Appends how lanes are set, and a page on a small screen and in print.
pub(crate) fn push_lane_style(bytes: &mut Vec<u8>) -> Result<(), AllocError>
    ensures { OnOk result (bytes.new.items ≡ bytes.old.items ++ lane_style) }
{
    push_fixed(
        bytes,
        ".gantt{display:grid;grid-template-columns:minmax(90px,16%) 1fr;gap:0 8px}.names{overflow:hidden}.axisgap{height:14px}.lane{height:22px;line-height:22px;text-align:right;overflow:hidden;text-overflow:ellipsis;white-space:pre;font-size:12px}.lane.top{font-weight:600}summary{cursor:pointer;padding:3px 0}.load{margin:4px 0 12px}@media(max-width:1000px){bdi{white-space:pre-wrap}#slack .axis text:nth-child(even){display:none}td.n,th.n{white-space:normal;overflow-wrap:anywhere}.ev{display:block;font-size:11px;line-height:1.15}dl{gap:4px 18px}dd{font-size:16px}}@media print{body{max-width:none;font-size:10pt}.scroll{overflow:visible;max-height:none}tr,.gantt,figure{break-inside:avoid}h2,summary{break-after:avoid}*{print-color-adjust:exact;-webkit-print-color-adjust:exact}}",
    )
}

/// Appends how slack is drawn.
pub(crate) fn push_slack_style(bytes: &mut Vec<u8>) -> Result<(), AllocError>
    ensures { OnOk result (bytes.new.items ≡ bytes.old.items ++ slack_style) }
{
    push_fixed(
        bytes,
        ".range{fill:var(--off);stroke:var(--off)}.box{fill:var(--off);stroke:var(--off)}.med{stroke:var(--fg);stroke-width:2}.grid{stroke:var(--line);stroke-dasharray:2 3}.k.range{background:var(--off);height:3px;vertical-align:3px}.k.box{background:var(--off)}.k.med{background:var(--fg);width:2px;height:12px}td small{color:var(--dim)}",
    )
}

/// Appends how the matrix is drawn.
pub(crate) fn push_matrix_style(bytes: &mut Vec<u8>) -> Result<(), AllocError>
    ensures { OnOk result (bytes.new.items ≡ bytes.old.items ++ matrix_style) }
{
    push_fixed(
        bytes,
        ".matrix text{font-size:10px}.dense text{font-size:8px}.dense>text:nth-of-type(even){display:none}.ml{text-anchor:end}.mc{text-anchor:middle;fill:var(--dim)}.full,.part{fill:var(--gain)}.excl{fill:none;stroke:var(--path);stroke-width:2}.over{fill:var(--off)}.k.full,.k.part{background:var(--gain);width:12px;height:12px}.k.part{width:7px;height:7px;vertical-align:1px}.k.excl{border:2px solid var(--path);width:8px;height:8px}.k.over{background:var(--off);width:4px;height:4px;vertical-align:3px}.pip{fill:none;stroke:var(--path2);stroke-width:2}.k.pip{border:2px solid var(--path2);width:12px;height:12px}",
    )
}

/// Appends how cells are shaded, and how tables of three columns are set.
pub(crate) fn push_heat_style(bytes: &mut Vec<u8>) -> Result<(), AllocError>
    ensures { OnOk result (bytes.new.items ≡ bytes.old.items ++ heat_style) }
{
    push_fixed(
        bytes,
        ":root{--h0:#f4f5f6;--h1:#fde9d9;--h2:#fbd3b4;--h3:#f6b388;--h4:#ee935d;--h5:#dd7233;--h6:#c2550f;--h7:#9a3f05;--h8:#6f2b00}@media(prefers-color-scheme:dark){:root{--h0:#1c2024;--h1:#3a2617;--h2:#55331b;--h3:#74431f;--h4:#955524;--h5:#b8692b;--h6:#d98039;--h7:#f39c58;--h8:#ffc79a}}.h0{fill:var(--h0)}.h1{fill:var(--h1)}.h2{fill:var(--h2)}.h3{fill:var(--h3)}.h4{fill:var(--h4)}.h5{fill:var(--h5)}.h6{fill:var(--h6)}.h7{fill:var(--h7)}.h8{fill:var(--h8)}.tailt td.n,.tailt th.n{width:27%}.tailt td.b,.tailt th.b{width:28%}td.heat,th.heat{width:34%;text-align:left}.wit td.n,.wit th.n{width:55%;max-width:none;white-space:normal;overflow-wrap:anywhere}td.w,th.w{text-align:left;white-space:normal;overflow-wrap:anywhere}",
    )
}

/// Appends how the graph is drawn.
pub(crate) fn push_graph_style(bytes: &mut Vec<u8>) -> Result<(), AllocError>
    ensures { OnOk result (bytes.new.items ≡ bytes.old.items ++ graph_style) }
{
    push_fixed(
        bytes,
        ".bx{fill:var(--head);stroke:var(--off)}.gt{font-weight:600}.graph .ge{fill:var(--dim);font-size:10px}.hb{fill:none;stroke:var(--dim);stroke-width:1.1}.faint .hb{stroke-opacity:.3}.ah{fill:var(--dim)}.mx{fill:none;stroke:var(--path);stroke-width:2;stroke-dasharray:5 3}.pipe{fill:none;stroke:var(--off);stroke-width:4;opacity:.75}.ahp{fill:var(--off)}.k.hb{border-top:2px solid var(--dim);height:0;vertical-align:4px}.k.mx{border-top:2px dashed var(--path);height:0;vertical-align:4px}.k.pipe{border-top:4px solid var(--off);height:0;vertical-align:3px}",
    )
}

/// Appends how the body of a page begins.
pub(crate) fn push_body_start(bytes: &mut Vec<u8>) -> Result<(), AllocError>
    ensures { OnOk result (bytes.new.items ≡ bytes.old.items ++ body_start) }
{
    push_fixed(
        bytes,
        "</style></head><body><svg width=\"0\" height=\"0\" aria-hidden=\"true\"><defs><pattern id=\"hatch\" width=\"5\" height=\"5\" patternUnits=\"userSpaceOnUse\" patternTransform=\"rotate(45)\"><rect class=\"hbg\" width=\"5\" height=\"5\"/><line class=\"hl\" x1=\"0\" x2=\"0\" y1=\"0\" y2=\"5\"/></pattern></defs></svg>",
    )
}

/// Appends how a page ends.
pub(crate) fn push_page_end(bytes: &mut Vec<u8>) -> Result<(), AllocError>
    ensures { OnOk result (bytes.new.items ≡ bytes.old.items ++ page_end) }
{
    push_fixed(bytes, "</main></body></html>")
}
